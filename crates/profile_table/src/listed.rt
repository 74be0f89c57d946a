// The lines of a profile.
ghost use Rattle.std.specs.Prelude.{◌≡◌, ◌+◌, ◌≤◌, ◌<◌, List};
ghost use Rattle.words.specs.Words.{or_else, none_of, bits_of, decimal_of, named_of};
ghost use Rattle.laws.specs.Text.{text};
ghost use Rattle.words.specs.Lines.{read_as};
ghost use Rattle.profile_table.specs.ProfileLines.{at_most17, meaning_of, kind_at, level_kind_at, line_at, line_read, line_ok, line_of};

use words::meaning::{bits, decimal, flag, named};
use words::{Read, chars, done, next_word, read_to, word};

// Kinds of values: the number of `Whole` has decimal digits, `Single` and `Double` are the bits of floats, `Flag` is 0 or 1, the next two
// may be `none`, `Gear` and `Power` are names. `Level` has those of a level's line: slot, pre_s, rate and max_bits.
#[derive(Clone, Copy)]
pub enum Kind {
    Whole,
    Single,
    Double,
    Flag,
    MaybeSingle,
    MaybeLevel,
    Gear,
    Power,
    Level,
}

fn gear(w: &[u8]) -> Option<u64>
    ensures { result ≡ or_else (named_of (text "ladder") 0 w.now) (named_of (text "goodput") 1 w.now) }
{
    named(w, b"ladder", 0).or(named(w, b"goodput", 1))
}

fn power(w: &[u8]) -> Option<u64>
    ensures { result ≡ or_else (named_of (text "none") 0 w.now)
        (or_else (named_of (text "mean") 1 w.now) (named_of (text "td") 2 w.now)) }
{
    let rest = named(w, b"mean", 1).or(named(w, b"td", 2));
    named(w, b"none", 0).or(rest)
}

// A level past every level.
fn at_most_17(n: Option<u64>) -> Option<u64>
    ensures { result ≡ at_most17 n }
{
    Some(n?.min(17))
}

fn none(w: &[u8]) -> Option<u64>
    ensures { result ≡ none_of w.now }
{
    named(w, b"none", words::NONE)
}

fn maybe_single(w: &[u8]) -> Option<u64>
    ensures { result ≡ or_else (none_of w.now) (bits_of 8 w.now) }
{
    none(w).or(bits(w, 8))
}

fn maybe_level(w: &[u8]) -> Option<u64>
    ensures { result ≡ or_else (none_of w.now) (at_most17 (decimal_of w.now)) }
{
    none(w).or(at_most_17(decimal(w)))
}

// What a word of a kind means. No one word is of the kind `Level`: `kind_at` says which kind each of a level's words has.
#[tactic(auto, unfolding(crate::specs::ProfileLines::meaning_of))]
fn value_of(w: &[u8], kind: Kind) -> Option<u64>
    ensures { result ≡ meaning_of kind w.now }
{
    match kind {
        Kind::Whole => decimal(w),
        Kind::Single => bits(w, 8),
        Kind::Double => bits(w, 16),
        Kind::Flag => flag(w),
        Kind::MaybeSingle => maybe_single(w),
        Kind::MaybeLevel => maybe_level(w),
        Kind::Gear => gear(w),
        Kind::Power | Kind::Level => power(w),
    }
}

// The kind of a line's value i.
fn kind_at(kind: Kind, i: usize) -> Kind
    ensures { result ≡ kind_at kind i }
{
    match kind {
        Kind::Level => level_kind(i),
        _ => kind,
    }
}

// Of a level's line: pre_s and rate are the ones with a fraction.
fn level_kind(i: usize) -> Kind
    ensures { result ≡ level_kind_at i }
{
    match i {
        1 | 2 => Kind::Double,
        _ => Kind::Whole,
    }
}

// The next word of a line, as one of a kind.
fn next_value(line: &[u8], r: Read, kind: Kind) -> Read
    ensures { result ≡ read_as (meaning_of kind) line.now r }
{
    let c = next_word(line, r);
    read_to(c, value_of(chars(line, c), kind))
}

// A line of n values; they go to the table's places from `at` on.
fn values(line: &[u8], name: &[u8], kind: Kind, n: usize, v: &mut [u64; 146], at: usize) -> bool
    requires { at + n ≤ 146 }
    ensures { (result ≡ line_ok line.now (line_of name.now kind n at) v.old)
        × (v.new ≡ (line_read line.now (line_of name.now kind n at) v.old).1) }
{
    let mut q = word(line, name);
    for i in 0..n {
        q = next_value(line, q, kind_at(kind, i));
        v[at + i] = q.value;
    }
    done(line, q)
}

// The lines 17 to 20.
fn air_line(line: &[u8], k: usize, v: &mut [u64; 146]) -> bool
    requires { (17 ≤ k) × (k ≤ 20) }
    ensures { (result ≡ line_ok line.now (line_at k) v.old)
        × (v.new ≡ (line_read line.now (line_at k) v.old).1) }
{
    match k {
        17 => values(line, b"ack_s", Kind::Double, 6, v, 68),
        18 => values(line, b"cue_s", Kind::Double, 1, v, 74),
        19 => values(line, b"frame_bytes", Kind::Whole, 2, v, 75),
        _ => values(line, b"harq", Kind::Whole, 7, v, 77),
    }
}

// The lines 21 to 24.
fn times_line(line: &[u8], k: usize, v: &mut [u64; 146]) -> bool
    requires { (21 ≤ k) × (k ≤ 24) }
    ensures { (result ≡ line_ok line.now (line_at k) v.old)
        × (v.new ≡ (line_read line.now (line_at k) v.old).1) }
{
    match k {
        21 => values(line, b"burst", Kind::Double, 4, v, 84),
        22 => values(line, b"hold", Kind::Double, 3, v, 88),
        23 => values(line, b"thresholds_db", Kind::Single, 17, v, 91),
        _ => values(line, b"eff_thresholds_db", Kind::Single, 17, v, 108),
    }
}

// The lines 25 to 28.
fn db_line(line: &[u8], k: usize, v: &mut [u64; 146]) -> bool
    requires { (25 ≤ k) × (k ≤ 28) }
    ensures { (result ≡ line_ok line.now (line_at k) v.old)
        × (v.new ≡ (line_read line.now (line_at k) v.old).1) }
{
    match k {
        25 => values(line, b"db", Kind::Single, 4, v, 125),
        26 => values(line, b"start_margin_db", Kind::MaybeSingle, 1, v, 129),
        27 => values(line, b"burst_climb_db", Kind::MaybeSingle, 1, v, 130),
        _ => values(line, b"levels", Kind::Whole, 2, v, 131),
    }
}

// The lines from 29 on; the last stands for all after it.
fn option_line(line: &[u8], k: usize, v: &mut [u64; 146]) -> bool
    requires { 29 ≤ k }
    ensures { (result ≡ line_ok line.now (line_at k) v.old)
        × (v.new ≡ (line_read line.now (line_at k) v.old).1) }
{
    match k {
        29 => values(line, b"pin_level", Kind::MaybeLevel, 1, v, 133),
        30 => values(line, b"gear", Kind::Gear, 1, v, 134),
        31 => values(line, b"power", Kind::Power, 1, v, 135),
        _ => values(line, b"on", Kind::Flag, 10, v, 136),
    }
}

// The line k after `profile`, from 0 up.
pub fn profile_line(line: &[u8], k: usize, v: &mut [u64; 146]) -> bool
    ensures { (result ≡ line_ok line.now (line_at k) v.old)
        × (v.new ≡ (line_read line.now (line_at k) v.old).1) }
{
    if k < 17 {
        return values(line, b"level", Kind::Level, 4, v, 4 * k);
    }
    if k <= 20 {
        return air_line(line, k, v);
    }
    if k <= 24 {
        return times_line(line, k, v);
    }
    if k <= 28 {
        return db_line(line, k, v);
    }
    option_line(line, k, v)
}
