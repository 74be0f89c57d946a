// An ack that is awaited (`ack_in` of sender.rs).
ghost use Rattle.std.specs.Prelude.{◌≡◌, ◌<◌};
ghost use Rattle.config.specs.Ranged.{Ranged};
ghost use Rattle.settle.specs.Settle.{Settling};
ghost use Rattle.settle.specs.AckInCode.{acked_by};

use config::Profile;
use record::Sender;
use settle::outcome::{clear_burst, outcome};
use settle::settle_burst;

// ack_in: an ack that is awaited.
pub fn ack_in(
    p: Profile,
    s: Sender,
    a: &mut [u8],
    burst: u8,
    bitmap: u64,
    stored: bool,
    snr_db: f32,
    time: f64,
) -> Sender
    requires fact_1 { Ranged p }
    requires fact_2 { (s.gear.level < 17) × Settling s a.old }
    ensures { (result, a.new) ≡ acked_by p burst bitmap stored snr_db time s a.old }
{
    let g = s.gear;
    let k = s.link;
    let b = s.last_burst;
    let level = g.level;
    let n = b.n;
    let matched = burst == k.burst_id;
    let h = g.on_ack(p, outcome(b, bitmap, matched), snr_db, time);
    let mut q = s;
    q.gear = h;
    if matched & (0 < n) {
        let w = level::wave_rank(level);
        q.link.peer_wave = w;
        let keep = stored & (p.harq & level::long_frame(level));
        let top = p.codes.h_max();
        return settle_burst(q, a, bitmap, top, keep);
    }
    clear_burst(q)
}
