// Document 01's reckoned examples, run through the code: a line each, as the paper words it, with what came out.
#![tactic(auto)]

mod holds;
mod rows;

use config::Marks;
use harq::{Harq, burst_check_bits, partial_field};
use header::{air_code, next_burst_id, user_bits};
use holds::hold_cases;
use level::top_level_in;
use levels::reach::level_for;
use report::ChanClass;
use rows::area_cases;
use std::io;

fn say(rt: &impl Print, text: &str, n: u64) -> io::Result<()> {
    println!(rt; "{text}{n}")
}

fn held_cases(rt: &impl Print) -> io::Result<()> {
    let codes = Harq {
        mother: 5760,
        ends: [5760, 4320, 2880, 2160, 1920, 1728],
    };
    say(
        rt,
        "P1 held 2880, increment ",
        codes.increment(2880, 2880) as u64,
    )?;
    say(
        rt,
        "P2 held 5760, increment ",
        codes.increment(5760, 2880) as u64,
    )?;
    say(rt, "P2 held 5760, start ", codes.start(5760) as u64)?;
    say(rt, "P3 field for 3 of 3 ", partial_field(3, 3) as u64)?;
    say(rt, "P3 field for 3 of 5 ", partial_field(3, 5) as u64)?;
    say(rt, "P3 field for 62 of 64 ", partial_field(62, 64) as u64)?;
    say(
        rt,
        "P4 stored 5, field 4, check bits ",
        burst_check_bits(5, 4) as u64,
    )?;
    Ok(())
}

fn level_cases(rt: &impl Print) -> io::Result<()> {
    say(rt, "P5 air_code 4 ", air_code(4) as u64)?;
    say(rt, "P5 air_code 5 ", air_code(5) as u64)?;
    say(rt, "P5 air_code 16 ", air_code(16) as u64)?;
    say(
        rt,
        "P6 level 5, session 9, burst 2, check bits 1, user ",
        user_bits(5, 9, 6) as u64,
    )?;
    for w in 0..6u8 {
        let top = top_level_in(w);
        println!(rt; "P10 top_level_in {w}, {top}")?;
    }
    say(
        rt,
        "P12 number 3, last heard 0, next ",
        next_burst_id(3, true, 0) as u64,
    )?;
    Ok(())
}

fn gear_cases(rt: &impl Print) -> io::Result<()> {
    let plain = Marks {
        thresholds_db: level::thresholds_db(),
        margin_db: 0.0,
    };
    let class = ChanClass {
        echo: false,
        doppler: false,
    };
    say(
        rt,
        "P11 6.0 dB, level ",
        level_for(plain, 0, class, 16, 6.0) as u64,
    )?;
    say(
        rt,
        "P11 2.5 dB, level ",
        level_for(plain, 0, class, 16, 2.5) as u64,
    )?;
    say(
        rt,
        "P11 -20 dB, level ",
        level_for(plain, 0, class, 16, -20.0) as u64,
    )?;
    Ok(())
}

fn main(rt: HostRuntime) -> io::Result<()> {
    held_cases(&rt)?;
    level_cases(&rt)?;
    gear_cases(&rt)?;
    area_cases(&rt)?;
    hold_cases(&rt)?;
    Ok(())
}
