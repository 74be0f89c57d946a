// Refusals 1 and 2: which of the profile's numbers are in range (document 01, Profile).
ghost use Rattle.std.specs.Prelude.{◌≡◌, [], ◌∷◌, leb};
ghost use Rattle.laws.specs.Tests.{all};
ghost use Rattle.laws.specs.Span.{every, upto};
ghost use Rattle.ieee.specs.Range.{w64, inside};
ghost use Rattle.config.specs.Ranges.{between, db_ok, maybe_db_ok, level_ok, ack_ok, air_ok, end_ok, harq_ok, lengths_ok, holds_ok, threshold_ok, marks_ok, pin_ok, levels_ok, sizes_ok, in_range as in_range_of};

use crate::{Air, HoldTimes, Lengths, Marks, MaybeDb, MaybeLevel, Profile};
use harq::Harq;

fn within(x: f64, lo: f64, hi: f64) -> bool
    ensures { result ≡ inside lo hi x }
{
    (lo <= x) & (x <= hi)
}

fn from_to(n: u32, lo: u32, hi: u32) -> bool
    ensures { result ≡ between lo hi n }
{
    (lo <= n) & (n <= hi)
}

fn db_ok(x: f32) -> bool
    ensures { result ≡ db_ok x }
{
    (-100.0 <= x) & (x <= 100.0)
}

fn maybe_db_ok(m: MaybeDb) -> bool
    ensures { result ≡ maybe_db_ok m }
{
    !m.set | db_ok(m.db)
}

// The numbers of a level.
fn level_ok(slot: u32, pre_s: f64, rate: f64, most: u32) -> bool
    ensures { result ≡ all (between 1 16384 slot ∷ inside (w64 0) (w64 60) pre_s ∷ inside (w64 1) (w64 100000) rate ∷ leb 1 most ∷ []) }
{
    from_to(slot, 1, 16384)
        & (within(pre_s, 0.0, 60.0) & (within(rate, 1.0, 100000.0) & (1 <= most)))
}

// In this loop and those below every place is tested, without a branch (docs/DECISIONS.md, 199).
fn levels_of_air_ok(a: Air) -> bool
    ensures { result ≡ every (level_ok a) (upto 0 17) }
{
    let mut ok = true;
    for l in 0..17 {
        ok &= level_ok(a.slot_bits[l], a.pre_s[l], a.rate[l], a.max_bits[l]);
    }
    ok
}

fn acks_ok(a: Air) -> bool
    ensures { result ≡ every (ack_ok a) (upto 0 6) }
{
    let mut ok = true;
    for w in 0..6 {
        ok &= within(a.ack_s[w], 0.0, 60.0);
    }
    ok
}

fn air_ok(a: Air) -> bool
    ensures { result ≡ air_ok a }
{
    levels_of_air_ok(a) & (acks_ok(a) & within(a.cue_s, 0.0, 10.0))
}

fn ends_ok(q: Harq) -> bool
    ensures { result ≡ every (end_ok q) (upto 0 6) }
{
    let mut ok = true;
    for i in 0..6 {
        ok &= from_to(q.ends[i], 1, 16384);
    }
    ok
}

fn harq_ok(q: Harq) -> bool
    ensures { result ≡ harq_ok q }
{
    from_to(q.mother, 1, 16384) & ends_ok(q)
}

fn lengths_ok(b: Lengths) -> bool
    ensures { result ≡ lengths_ok b }
{
    let costs = within(b.turnaround_s, 0.0, 60.0)
        & (db_ok(b.burst_steady_db) & maybe_db_ok(b.burst_climb_db));
    within(b.max_burst_s, 1.0, 1000.0)
        & (within(b.max_burst_long_s, 1.0, 1000.0) & (within(b.burst_overhead, 0.01, 1.0) & costs))
}

fn holds_ok(h: HoldTimes) -> bool
    ensures { result ≡ holds_ok h }
{
    within(h.fail_hold_s, 1.0, 100000.0)
        & (within(h.fail_hold_max_s, 0.0, 1000000.0) & within(h.loss_hold_s, 0.0, 1000000.0))
}

fn thresholds_ok(m: Marks) -> bool
    ensures { result ≡ every (threshold_ok m) (upto 0 17) }
{
    let mut ok = true;
    for l in 0..17 {
        ok &= db_ok(m.thresholds_db[l]);
    }
    ok
}

// Thresholds and margin in their range.
pub fn marks_ok(m: Marks) -> bool
    ensures { result ≡ marks_ok m }
{
    thresholds_ok(m) & db_ok(m.margin_db)
}

fn pin_ok(m: MaybeLevel) -> bool
    ensures { result ≡ pin_ok m }
{
    !m.set | (m.level <= 16)
}

fn levels_ok(p: Profile) -> bool
    ensures { result ≡ levels_ok p }
{
    (p.max_level <= 16) & ((p.skip_slices_from <= 17) & pin_ok(p.pin_level))
}

fn sizes_ok(p: Profile) -> bool
    ensures { result ≡ sizes_ok p }
{
    from_to(p.short_bytes, 18, 512) & (from_to(p.long_bytes, 18, 512) & (p.power <= 2))
}

// Refusal 1 where false: every number is in its range.
pub fn in_range(p: Profile) -> bool
    ensures { result ≡ in_range_of p }
{
    let last = db_ok(p.cue_below_db)
        & (maybe_db_ok(p.start_margin_db) & (levels_ok(p) & sizes_ok(p)));
    let marks = marks_ok(p.plain) & (marks_ok(p.eff) & last);
    air_ok(p.air) & (harq_ok(p.codes) & (lengths_ok(p.lengths) & (holds_ok(p.hold_times) & marks)))
}

// Refusal 2 where false: the short frame is no larger than the long.
pub fn in_order(short: u32, long: u32) -> bool
    ensures { result ≡ leb short long }
{
    short <= long
}
