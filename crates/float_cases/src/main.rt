// Runs numbers through the public functions of float and exp, one line a case: its arguments, and what each function of
// such arguments makes of them, floats by their bits. `stdout` holds what `reckon.py` makes of the same lines: document 01's steps
// and IEEE 754's roundings in exact fractions and in Python's doubles, with nothing of this code.
#![tactic(auto)]

// How a case is written.
mod show;

use show::{clamp, held, lost, median, one32, one64, seconds, sum, two32, two64};
use std::io;

// Where f64 to f32 ties, goes below the least normal f32, overflows, and keeps zeros and infinities.
fn narrow_cases(rt: &impl Print) -> io::Result<()> {
    let inf: f64 = 1.0 / 0.0;
    let nan: f64 = 0.0 / 0.0;
    one64(rt, 1.0)?;
    one64(rt, 1.0000000596046448)?;
    one64(rt, 1.000000059604645)?;
    one64(rt, 1.0000001788139343)?;
    one64(rt, -1.0000000596046448)?;
    one64(rt, -1.0000001788139343)?;
    one64(rt, 0.1)?;
    one64(rt, 7.006492321624085e-46)?;
    one64(rt, 7.006492321624087e-46)?;
    one64(rt, 2.1019476964872256e-45)?;
    one64(rt, 1.401298464324817e-45)?;
    one64(rt, 5e-324)?;
    one64(rt, -5e-324)?;
    one64(rt, 1.1754942807573643e-38)?;
    one64(rt, 1.1754943508222875e-38)?;
    one64(rt, 3.4028234663852886e38)?;
    one64(rt, 3.4028235677973362e38)?;
    one64(rt, 3.4028235677973366e38)?;
    one64(rt, -3.4028235677973366e38)?;
    one64(rt, 1e300)?;
    one64(rt, 0.0)?;
    one64(rt, -0.0)?;
    one64(rt, inf)?;
    one64(rt, -inf)?;
    one64(rt, nan)?;
    Ok(())
}

// Where floor goes down from below zero, near 2^52 and beyond it.
fn floor_cases(rt: &impl Print) -> io::Result<()> {
    one64(rt, 0.5)?;
    one64(rt, 2.9999999999999996)?;
    one64(rt, -0.5)?;
    one64(rt, -1.0)?;
    one64(rt, -1.5)?;
    one64(rt, 4503599627370495.5)?;
    one64(rt, -4503599627370495.5)?;
    one64(rt, -4503599627370496.0)?;
    one64(rt, -1e300)?;
    Ok(())
}

// The ends of a u64, and milliseconds that go up.
fn whole_cases(rt: &impl Print) -> io::Result<()> {
    one64(rt, 1.9)?;
    one64(rt, 18446744073709549568.0)?;
    one64(rt, 18446744073709551616.0)?;
    one64(rt, 7.9)?;
    one64(rt, -3.0)?;
    one64(rt, 1e30)?;
    one64(rt, 0.0005)?;
    one64(rt, 0.001)?;
    one64(rt, 1.0000000000000002)?;
    one64(rt, 4503599627370.4965)?;
    Ok(())
}

// E at its ends, where t is a half, and between.
fn exp64_cases(rt: &impl Print) -> io::Result<()> {
    one64(rt, -708.0)?;
    one64(rt, -708.0000000000001)?;
    one64(rt, 709.0)?;
    one64(rt, 709.0000000000001)?;
    one64(rt, 0.34657359027997264)?;
    one64(rt, 0.3465735902799727)?;
    one64(rt, -0.34657359027997264)?;
    one64(rt, -0.3465735902799727)?;
    one64(rt, 100.5)?;
    one64(rt, -300.25)?;
    one64(rt, 1e-300)?;
    one64(rt, -0.001)?;
    Ok(())
}

// abs and E of an f32.
fn exp32_cases(rt: &impl Print) -> io::Result<()> {
    let inf: f32 = 1.0 / 0.0;
    let nan: f32 = 0.0 / 0.0;
    one32(rt, 0.0)?;
    one32(rt, -0.0)?;
    one32(rt, 1.0)?;
    one32(rt, -1.0)?;
    one32(rt, 0.34657359)?;
    one32(rt, 20.0)?;
    one32(rt, 88.72283)?;
    one32(rt, 88.72284)?;
    one32(rt, -87.5)?;
    one32(rt, -103.97208)?;
    one32(rt, -104.0)?;
    one32(rt, -800.0)?;
    one32(rt, 800.0)?;
    one32(rt, nan)?;
    one32(rt, -1.5)?;
    one32(rt, 1.5)?;
    one32(rt, -inf)?;
    Ok(())
}

// Zeros, infinities and NaN, in order, picked, and as shares.
fn two32_cases(rt: &impl Print) -> io::Result<()> {
    let inf: f32 = 1.0 / 0.0;
    let nan: f32 = 0.0 / 0.0;
    two32(rt, -0.0, 0.0)?;
    two32(rt, 0.0, -0.0)?;
    two32(rt, 0.0, 0.0)?;
    two32(rt, 1.0, 2.0)?;
    two32(rt, 2.0, 1.0)?;
    two32(rt, -2.0, -1.0)?;
    two32(rt, nan, -inf)?;
    two32(rt, -inf, nan)?;
    two32(rt, nan, nan)?;
    two32(rt, inf, inf)?;
    two32(rt, 1.5, -1.5)?;
    two32(rt, nan, 1.5)?;
    two32(rt, -1.5, nan)?;
    two32(rt, 0.5, 1.0)?;
    two32(rt, 1.0, 0.0)?;
    two32(rt, 0.99999994, 1.0)?;
    Ok(())
}

// The same of f64.
fn two64_cases(rt: &impl Print) -> io::Result<()> {
    let inf: f64 = 1.0 / 0.0;
    let nan: f64 = 0.0 / 0.0;
    two64(rt, -0.0, 0.0)?;
    two64(rt, 0.0, -0.0)?;
    two64(rt, 5e-324, 0.0)?;
    two64(rt, nan, -inf)?;
    two64(rt, -inf, nan)?;
    two64(rt, 1.0, 2.0)?;
    two64(rt, 2.0, 1.0)?;
    two64(rt, nan, 1.0)?;
    two64(rt, 1.0, nan)?;
    two64(rt, nan, nan)?;
    Ok(())
}

// The median.
fn median_cases(rt: &impl Print) -> io::Result<()> {
    let nan: f32 = 0.0 / 0.0;
    median(rt, 1.0, 2.0, 3.0)?;
    median(rt, 3.0, 1.0, 2.0)?;
    median(rt, 2.0, 3.0, 1.0)?;
    median(rt, 5.0, 1.0, 5.0)?;
    median(rt, 0.0, -0.0, 0.0)?;
    median(rt, -0.0, 0.0, -0.0)?;
    median(rt, 2.0, nan, 1.0)?;
    median(rt, nan, 1.0, nan)?;
    Ok(())
}

// clamp.
fn clamp_cases(rt: &impl Print) -> io::Result<()> {
    let nan: f64 = 0.0 / 0.0;
    clamp(rt, 5.0, 0.0, 3.0)?;
    clamp(rt, -1.0, 0.0, 3.0)?;
    clamp(rt, 2.0, 0.0, 3.0)?;
    clamp(rt, nan, 0.0, 3.0)?;
    clamp(rt, 1.0, 3.0, 0.0)?;
    Ok(())
}

// Holds (document 01's third failure: 120 s, and 100 s where that is the cap), durations, losses, and sums of milliseconds.
fn gear_cases(rt: &impl Print) -> io::Result<()> {
    let nan: f64 = 0.0 / 0.0;
    held(rt, 30.0, 2, 1000000.0)?;
    held(rt, 30.0, 2, 100.0)?;
    held(rt, 1.0, 0, 1000000.0)?;
    held(rt, 100000.0, 270, 1000000.0)?;
    held(rt, 0.0, 1023, 7.0)?;
    held(rt, nan, 3, 7.0)?;
    seconds(rt, 1.5, 3.0, 10)?;
    seconds(rt, 0.0, 100000.0, 4294967295)?;
    seconds(rt, 60.0, 0.1, 18446744073709551615)?;
    lost(rt, 3, 10)?;
    lost(rt, 10, 10)?;
    lost(rt, 0, 64)?;
    lost(rt, 63, 64)?;
    lost(rt, 0, 0)?;
    sum(rt, 1, 2)?;
    sum(rt, 18446744073709551614, 1)?;
    sum(rt, 18446744073709551615, 1)?;
    sum(rt, 18446744073709551615, 18446744073709551615)?;
    Ok(())
}

fn main(rt: HostRuntime) -> io::Result<()> {
    narrow_cases(&rt)?;
    floor_cases(&rt)?;
    whole_cases(&rt)?;
    exp64_cases(&rt)?;
    exp32_cases(&rt)?;
    two32_cases(&rt)?;
    two64_cases(&rt)?;
    median_cases(&rt)?;
    clamp_cases(&rt)?;
    gear_cases(&rt)?;
    Ok(())
}
