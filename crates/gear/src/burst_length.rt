// The length of bursts (gear.rs).
ghost use Rattle.std.specs.Prelude.{◌≡◌, ◌<◌};
ghost use Rattle.gear.specs.BurstLength.{clean_burst, next_entry, steady, far};

use config::{Marks, MaybeDb, Profile};

// The burst length at which a level's fixed cost per round trip is `burst_overhead` of the cycle.
pub(crate) fn clean_burst_s(cfg: Profile, l: usize, cue: bool) -> f64
    requires { l < 17 }
    ensures { result ≡ clean_burst cfg l cue }
{
    let pre = cfg.air.data_s(l, 1, cue);
    let ack = cfg.air.ack(level::wave_rank(l));
    let turn = 2.0 * cfg.lengths.turnaround_s;
    let lo = cfg.lengths.max_burst_s;
    float::pick::clamp64(
        (pre + ack + turn) / cfg.lengths.burst_overhead - ack - turn,
        lo,
        float::pick::max(cfg.lengths.max_burst_long_s, lo),
    )
}

// The lowest SNR that a level above `at` wants.
fn next_entry(marks: Marks, at: usize, top: usize) -> f32
    requires fact_1 { at < 17 }
    requires fact_2 { top < 17 }
    ensures { result ≡ next_entry marks at top }
{
    let mut least = f32::INFINITY;
    for k in at + 1..top + 1 {
        least = float::pick::min(least, marks.entry(k));
    }
    least
}

// Not close to what a faster level wants, up to level `top`.
pub(crate) fn far(plain: Marks, climb: MaybeDb, at: usize, top: usize, snr_db: f32) -> bool
    requires fact_1 { at < 17 }
    requires fact_2 { top < 17 }
    ensures { result ≡ far plain climb at top snr_db }
{
    let entry = next_entry(plain, at, top);
    !climb.set | (snr_db < entry - climb.db)
}

// The report is close to the one before.
pub(crate) fn steady(last: MaybeDb, most: f32, snr_db: f32) -> bool
    ensures { result ≡ steady last most snr_db }
{
    let moved = float::pick::abs32(snr_db - last.db);
    last.set & (moved <= most)
}
