// level.rs: the speed ladder, as constant tables by level number, and what gear.rs and station.rs read from it.
// A wave is its `wave_rank`: 0 lifeline, 1 MFSK R0, 2 MFSK R1, 3 OFDM slice, 4 OFDM long, 5 OFDM normal.
// kept: the C interface bears waves and levels as numbers, and a rate is only compared with 1/4.
#![tactic(auto)]

ghost use Rattle.std.specs.Prelude.{◌≡◌, ◌<◌};
ghost use Rattle.level.specs.Ladder.{wave_rank, rate_of, long_frame, thresholds, eff_thresholds, air_mean, air_mean_td, guard_ms, is_step, top_level_in};

// Where every link starts.
pub const FLOOR: usize = 0;

// LADDER.len().
pub const LEVELS: usize = 17;

const WAVES: [u8; 17] = [1, 2, 2, 2, 2, 3, 3, 4, 4, 5, 5, 5, 5, 5, 5, 5, 5];

// 0 is 1/4, 1 is 1/3, 2 is 1/2, 3 is 2/3, 4 is 3/4, 5 is 5/6.
const RATES: [u8; 17] = [0, 0, 1, 2, 3, 1, 2, 0, 2, 1, 2, 3, 3, 3, 4, 4, 5];

const LONG_FRAMES: [bool; 17] = [
    false, false, false, false, false, true, true, true, true, true, true, true, true, true, true,
    true, true,
];

const THRESHOLDS_DB: [f32; 17] = [
    -12.0, -9.0, -8.0, -6.5, -4.5, -3.0, -0.5, 2.0, 6.5, 2.5, 5.5, 8.0, 12.0, 13.5, 15.5, 20.5,
    23.5,
];

const EFF_THRESHOLDS_DB: [f32; 17] = [
    -13.0, -11.0, -10.3, -8.9, -7.4, -5.0, -2.5, -0.5, 3.8, 0.0, 3.0, 5.0, 9.5, 11.0, 12.0, 17.0,
    19.0,
];

const AIR_MEAN_DB: [f32; 17] = [
    0.0, 0.0, 0.0, 0.0, 0.0, -2.7, -2.5, -2.4, -2.4, -2.5, -2.5, -2.5, -3.4, -5.2, -5.1, -7.3, -7.3,
];

const AIR_MEAN_TD_DB: [f32; 17] = [
    0.0, 0.0, 0.0, 0.0, 0.0, -0.8, -0.8, -0.8, -1.1, -0.8, -0.8, -1.3, -1.6, -3.2, -3.5, -6.0, -5.1,
];

// wave_rank(LADDER[l].wave)
pub fn wave_rank(l: usize) -> u8
    requires { l < 17 }
    ensures { result ≡ wave_rank l }
{
    WAVES[l]
}

// LADDER[l].rate
pub fn rate(l: usize) -> u8
    requires { l < 17 }
    ensures { result ≡ rate_of l }
{
    RATES[l]
}

// LADDER[l].frame == FrameSize::Long
pub fn long_frame(l: usize) -> bool
    requires { l < 17 }
    ensures { result ≡ long_frame l }
{
    LONG_FRAMES[l]
}

// THRESHOLDS_DB
pub fn thresholds_db() -> [f32; 17]
    ensures { result ≡ thresholds }
{
    THRESHOLDS_DB
}

// EFF_THRESHOLDS_DB
pub fn eff_thresholds_db() -> [f32; 17]
    ensures { result ≡ eff_thresholds }
{
    EFF_THRESHOLDS_DB
}

// AIR_MEAN_DB[l]
pub fn air_mean_db(l: usize) -> f32
    requires { l < 17 }
    ensures { result ≡ air_mean l }
{
    AIR_MEAN_DB[l]
}

// AIR_MEAN_TD_DB[l]
pub fn air_mean_td_db(l: usize) -> f32
    requires { l < 17 }
    ensures { result ≡ air_mean_td l }
{
    AIR_MEAN_TD_DB[l]
}

// guard_ms of gear.rs, in whole ms: the echo that a wave takes in its stride.
pub fn guard_ms(w: u8) -> u8
    ensures { result ≡ guard_ms w }
{
    match w {
        0..=2 => 0,
        4 => 10,
        _ => 4,
    }
}

// `step` of climb_above: a slice level, or MFSK at a rate other than 1/4.
pub fn is_step(l: usize) -> bool
    requires { l < 17 }
    ensures { result ≡ is_step l }
{
    let w = wave_rank(l);
    (w == 3) | ((w < 3) & (rate(l) != 0))
}

// The highest level whose wave is no faster than w.
pub fn top_level_in(w: u8) -> usize
    ensures { result ≡ top_level_in w }
{
    for k in (0..LEVELS).rev() {
        if wave_rank(k) <= w {
            return k;
        }
    }
    FLOOR
}
