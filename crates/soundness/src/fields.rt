// The sound record of document 01: its definition, and the tests of the gear and the link.
ghost use Rattle.std.specs.Prelude.{◌≡◌, [], ◌∷◌, not, ◌||◌};
ghost use Rattle.std.specs.Float.Ieee.{le};
ghost use Rattle.laws.specs.Tests.{all};
ghost use Rattle.laws.specs.Span.{every, upto};
ghost use Rattle.ieee.specs.Range.{inside, w32, w64};
ghost use Rattle.soundness.specs.Soundness.{kept_ok, kept_if_ok, reports_ok, remembered_ok, gear_ok, link_ok};

use config::MaybeDb;
use gear::Gear;
use levels::memory::{Reports, Tries};
use levels::usable::Holds;
use record::Link;

// A kept dB.
fn kept_ok(x: f32) -> bool
    ensures { result ≡ kept_ok x }
{
    (-100.0 <= x) & (x <= 308.0)
}

fn kept_if_ok(m: MaybeDb) -> bool
    ensures { result ≡ kept_if_ok m }
{
    !m.set | kept_ok(m.db)
}

fn reports_ok(r: Reports) -> bool
    ensures { result ≡ reports_ok r }
{
    ((r.count < 1) | kept_ok(r.c))
        & (((r.count < 2) | kept_ok(r.b)) & ((r.count < 3) | kept_ok(r.a)))
}

// What is remembered of a level: its share where it was tried, the time of it, and the end of its hold.
fn level_ok(tried: bool, share: f32, at: f64, until: f64) -> bool
    ensures { result ≡ all ((not tried || inside (w32 0) (w32 1) share) ∷ le at (w64 1000000000) ∷ le until (w64 1001000000) ∷ []) }
{
    (!tried | ((0.0 <= share) & (share <= 1.0))) & ((at <= 1000000000.0) & (until <= 1001000000.0))
}

// Every level is tested, without a branch (docs/DECISIONS.md, 199).
fn levels_ok(t: Tries, h: Holds) -> bool
    ensures { result ≡ every (remembered_ok t h) (upto 0 17) }
{
    let mut ok = true;
    for k in 0..17 {
        ok &= level_ok(
            t.tried[k],
            t.success[k],
            t.success_at[k],
            h.blocked_until[k],
        );
    }
    ok
}

pub fn gear_ok(g: Gear) -> bool
    ensures { result ≡ gear_ok g }
{
    let s = g.burst_s;
    (g.level <= 16)
        & ((g.target <= 16)
            & (((s == 0.0) | ((1.0 <= s) & (s <= 1000.0)))
                & (kept_if_ok(g.aim_db)
                    & (kept_if_ok(g.last_report_db)
                        & (reports_ok(g.snr_reports) & levels_ok(g.tries, g.holds))))))
}

pub fn link_ok(k: Link) -> bool
    ensures { result ≡ link_ok k }
{
    let t = k.last_time;
    let d = k.peer_doppler_hz;
    (t <= 1000000000.0)
        & ((k.burst_id <= 3) & ((!k.heard | (k.peer_heard <= 3)) & (!(d < 0.0) & !(63.5 < d))))
}
