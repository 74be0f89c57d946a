// The profile of a table of numbers, in the order of docs/CALLS.md, and the lines that fill the table.
#![tactic(auto)]

ghost use Rattle.std.specs.Prelude.{◌≡◌, ℕ, ◌+◌, ◌*◌, ◌≤◌, ◌<◌, get_or};
ghost use Rattle.profile_table.specs.Table.{row_of, or_most, u32_at, u8_at, double_at, single_of, single_at, flag_at, maybe_db_at};
ghost use Rattle.profile_table.specs.Table.{maybe_level_at};
ghost use Rattle.profile_table.specs.Table.{air_of, codes_of, lengths_of, hold_times_of, marks_from, profile_of};

use config::{Air, HoldTimes, Lengths, Marks, MaybeDb, MaybeLevel, Profile};
use float_bits::Pattern;
use harq::Harq;

pub mod listed;

// Lines of a profile after its first, and numbers in them.
pub const LINES: usize = 33;

pub const NUMBERS: usize = 146;

// What stands for `none`.
pub const NONE: u64 = 18446744073709551615;

fn at(v: &[u64; 146], k: usize) -> u64
    requires { k < 146 }
    ensures { result ≡ get_or v.now k 0 }
{
    v[k]
}

// A number too wide for 32 bits is `most`.
fn narrowed(n: u64, most: u32) -> u32
    ensures { result ≡ or_most most n }
{
    u32::try_from(n).unwrap_or(most)
}

fn u32_at(v: &[u64; 146], k: usize) -> u32
    requires { k < 146 }
    ensures { result ≡ u32_at v.now k }
{
    narrowed(at(v, k), u32::MAX)
}

fn u8_at(v: &[u64; 146], k: usize) -> u8
    requires { k < 146 }
    ensures { result ≡ u8_at v.now k }
{
    u8::try_from(at(v, k)).unwrap_or(u8::MAX)
}

fn f64_at(v: &[u64; 146], k: usize) -> f64
    requires { k < 146 }
    ensures { result ≡ double_at v.now k }
{
    f64::of_bits(at(v, k))
}

// The f32 of a pattern, the low 32 bits of a number.
pub fn single_of(n: u64) -> f32
    ensures { result ≡ single_of n }
{
    f32::of_bits((n % 4294967296) as u32)
}

fn f32_at(v: &[u64; 146], k: usize) -> f32
    requires { k < 146 }
    ensures { result ≡ single_at v.now k }
{
    single_of(at(v, k))
}

fn flag_at(v: &[u64; 146], k: usize) -> bool
    requires { k < 146 }
    ensures { result ≡ flag_at v.now k }
{
    at(v, k) == 1
}

fn db_at(v: &[u64; 146], k: usize) -> MaybeDb
    requires { k < 146 }
    ensures { result ≡ maybe_db_at v.now k }
{
    if at(v, k) == NONE {
        return MaybeDb {
            set: false,
            db: 0.0,
        };
    }
    MaybeDb {
        set: true,
        db: f32_at(v, k),
    }
}

fn level_at(v: &[u64; 146], k: usize) -> MaybeLevel
    requires { k < 146 }
    ensures { result ≡ maybe_level_at v.now k }
{
    let n = at(v, k);
    if n == NONE {
        return MaybeLevel {
            set: false,
            level: 0,
        };
    }
    MaybeLevel {
        set: true,
        level: n as usize,
    }
}

// For each level the number from `from` on, every fourth.
fn u32s(v: &[u64; 146], from: usize, most: u32) -> [u32; 17]
    requires { from < 4 }
    ensures { result ≡ row_of (λ (l : ℕ). or_most most (get_or v.now (from + 4 * l) 0)) 17 }
{
    let mut x = [0u32; 17];
    for l in 0..17 {
        x[l] = narrowed(at(v, from + 4 * l), most);
    }
    x
}

fn f64s(v: &[u64; 146], from: usize) -> [f64; 17]
    requires { from < 4 }
    ensures { result ≡ row_of (λ (l : ℕ). double_at v.now (from + 4 * l)) 17 }
{
    let mut x: [f64; 17] = [0.0; 17];
    for l in 0..17 {
        x[l] = f64_at(v, from + 4 * l);
    }
    x
}

// 17 thresholds.
fn f32s(v: &[u64; 146], from: usize) -> [f32; 17]
    requires { from + 17 ≤ 146 }
    ensures { result ≡ row_of (λ (l : ℕ). single_at v.now (from + l)) 17 }
{
    let mut x: [f32; 17] = [0.0; 17];
    for l in 0..17 {
        x[l] = f32_at(v, from + l);
    }
    x
}

// For each wave by rank.
fn acks(v: &[u64; 146]) -> [f64; 6]
    ensures { result ≡ (air_of v.now).ack_s }
{
    [
        f64_at(v, 68),
        f64_at(v, 69),
        f64_at(v, 70),
        f64_at(v, 71),
        f64_at(v, 72),
        f64_at(v, 73),
    ]
}

fn air(v: &[u64; 146]) -> Air
    ensures { result ≡ air_of v.now }
{
    Air {
        slot_bits: u32s(v, 0, u32::MAX),
        pre_s: f64s(v, 1),
        rate: f64s(v, 2),
        max_bits: u32s(v, 3, 0),
        ack_s: acks(v),
        cue_s: f64_at(v, 74),
    }
}

fn codes(v: &[u64; 146]) -> Harq
    ensures { result ≡ codes_of v.now }
{
    Harq {
        mother: u32_at(v, 77),
        ends: [
            u32_at(v, 78),
            u32_at(v, 79),
            u32_at(v, 80),
            u32_at(v, 81),
            u32_at(v, 82),
            u32_at(v, 83),
        ],
    }
}

fn lengths(v: &[u64; 146]) -> Lengths
    ensures { result ≡ lengths_of v.now }
{
    Lengths {
        max_burst_s: f64_at(v, 84),
        max_burst_long_s: f64_at(v, 85),
        burst_overhead: f64_at(v, 86),
        turnaround_s: f64_at(v, 87),
        burst_adapt: flag_at(v, 139),
        burst_steady_db: f32_at(v, 128),
        burst_climb_db: db_at(v, 130),
    }
}

fn hold_times(v: &[u64; 146]) -> HoldTimes
    ensures { result ≡ hold_times_of v.now }
{
    HoldTimes {
        fail_hold_s: f64_at(v, 88),
        fail_hold_max_s: f64_at(v, 89),
        loss_hold_s: f64_at(v, 90),
    }
}

fn marks(v: &[u64; 146], from: usize, margin: usize) -> Marks
    requires { (from + 17 ≤ 146) × (margin < 146) }
    ensures { result ≡ marks_from v.now from margin }
{
    Marks {
        thresholds_db: f32s(v, from),
        margin_db: f32_at(v, margin),
    }
}

// The profile of a whole table.
pub fn profile_of(v: &[u64; 146]) -> Profile
    ensures { result ≡ profile_of v.now }
{
    Profile {
        air: air(v),
        short_bytes: u32_at(v, 75),
        long_bytes: u32_at(v, 76),
        codes: codes(v),
        lengths: lengths(v),
        hold_times: hold_times(v),
        plain: marks(v, 91, 125),
        eff: marks(v, 108, 126),
        eff_snr: flag_at(v, 138),
        cue_below_db: f32_at(v, 127),
        start_margin_db: db_at(v, 129),
        max_level: at(v, 131) as usize,
        skip_slices_from: at(v, 132) as usize,
        pin_level: level_at(v, 133),
        goodput: flag_at(v, 134),
        power: u8_at(v, 135),
        harq: flag_at(v, 136),
        pick_family: flag_at(v, 137),
        smooth_target: flag_at(v, 140),
        hold_by_goodput: flag_at(v, 141),
        slice_slots: flag_at(v, 142),
        merge_pieces: flag_at(v, 143),
        cue: flag_at(v, 144),
        harq_partial: flag_at(v, 145),
    }
}
