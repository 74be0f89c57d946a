// Two gear records, field by field, floats by their bits.
ghost use Rattle.std.specs.Prelude.{◌<◌};

use config::MaybeDb;
use float_bits::Pattern;
use gear::Gear;
use levels::memory::{Reports, Tries};
use levels::usable::Holds;
use report::ChanClass;

// kept: a derived == compares floats by value, and these are compared by their bits.
fn same64(x: f64, y: f64) -> bool {
    (x == x) & (x.pattern() == y.pattern())
}

fn same32(x: f32, y: f32) -> bool {
    (x == x) & (x.pattern() == y.pattern())
}

fn same_db(x: MaybeDb, y: MaybeDb) -> bool {
    (x.set == y.set) & same32(x.db, y.db)
}

fn same_class(x: ChanClass, y: ChanClass) -> bool {
    (x.echo == y.echo) & (x.doppler == y.doppler)
}

fn same_reports(x: Reports, y: Reports) -> bool {
    (x.count == y.count) & same32(x.a, y.a) & same32(x.b, y.b) & same32(x.c, y.c)
}

fn same_tries(x: Tries, y: Tries, k: usize) -> bool
    requires { k < 17 }
{
    (x.tried[k] == y.tried[k])
        & same32(x.success[k], y.success[k])
        & same64(x.success_at[k], y.success_at[k])
        & (x.fails[k] == y.fails[k])
}

fn same_holds(x: Holds, y: Holds, k: usize) -> bool
    requires { k < 17 }
{
    same64(x.blocked_until[k], y.blocked_until[k]) & (x.hold_all[k] == y.hold_all[k])
}

// The first level whose fields differ: 10 + its number.
fn level(g: Gear, want: Gear) -> Option<usize> {
    for k in 0..17usize {
        if !same_tries(g.tries, want.tries, k) | !same_holds(g.holds, want.holds, k) {
            return Some(10 + k);
        }
    }
    None
}

// The first field that differs: its place in the record, from 1 on, and 10 + k for the fields of level k.
pub(crate) fn differing(g: Gear, want: Gear) -> Option<usize> {
    if g.level != want.level {
        Some(1)
    } else if g.target != want.target {
        Some(2)
    } else if !same64(g.burst_s, want.burst_s) {
        Some(3)
    } else if !same_db(g.aim_db, want.aim_db) {
        Some(4)
    } else if !same_db(g.last_report_db, want.last_report_db) {
        Some(5)
    } else if !same_reports(g.snr_reports, want.snr_reports) {
        Some(6)
    } else if !same_class(g.peer_class, want.peer_class) {
        Some(7)
    } else if g.cue != want.cue {
        Some(8)
    } else {
        level(g, want)
    }
}
