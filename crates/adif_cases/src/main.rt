// Runs seconds through calendar and links through adif, one line a case. `stdout` holds what `reckon.py` makes of the same cases by
// Python's own calendar, with nothing of this code.
#![tactic(auto)]

ghost use Rattle.std.specs.Prelude.{◌≤◌};

use adif::log_link;
use calendar::{date_of, leap, time_of, year_days};
use std::io;

fn number(rt: &impl Print, n: u64) -> io::Result<()> {
    print!(rt; "{n} ")
}

// A second, its date and its time.
fn moment(rt: &impl Print, t: u64) -> io::Result<()> {
    let d = date_of(t);
    let h = time_of(t);
    number(rt, t)?;
    number(rt, d.year)?;
    number(rt, d.month)?;
    number(rt, d.day)?;
    number(rt, h.hour)?;
    number(rt, h.minute)?;
    number(rt, h.second)?;
    println!(rt; "")
}

// 1 or 0 for each of 100 years.
fn century(rt: &impl Print, from: u64) -> io::Result<()>
    requires { from ≤ 10000 }
{
    for year in from..from + 100 {
        print!(rt; "{}", u8::from(leap(year)))?;
    }
    println!(rt; "")
}

// The first and the last second of every year, and both ends of its 60th day.
fn years(rt: &impl Print) -> io::Result<()> {
    let mut s: u64 = 0;
    for y in 1970..2100 {
        let n = year_days(y);
        moment(rt, s)?;
        moment(rt, s + 5097599)?;
        moment(rt, s + 5097600)?;
        moment(rt, s + 5183999)?;
        moment(rt, s + 5184000)?;
        s += n * 86400;
        moment(rt, s - 1)?;
    }
    Ok(())
}

// 1,560 seconds a mean month apart.
fn spread(rt: &impl Print) -> io::Result<()> {
    for k in 0..1560 {
        moment(rt, k * 2629746)?;
    }
    Ok(())
}

// A link: the whole output, which held dots, and the answer.
fn link(rt: &impl Print, call: &[u8], on: u64, off: u64, acked: u32) -> io::Result<()> {
    let mut out = [b'.'; 256];
    let r = log_link(call, on, off, acked, &mut out);
    rt.write_all(&out)?;
    print!(rt; " ")?;
    number(rt, u64::from(r.refusal))?;
    number(rt, r.len as u64)?;
    println!(rt; "")
}

fn short_output(rt: &impl Print, call: &[u8], on: u64, off: u64) -> io::Result<()> {
    let mut out = [b'.'; 255];
    let r = log_link(call, on, off, 7, &mut out);
    rt.write_all(&out)?;
    print!(rt; " ")?;
    number(rt, u64::from(r.refusal))?;
    number(rt, r.len as u64)?;
    println!(rt; "")
}

fn links(rt: &impl Print) -> io::Result<()> {
    link(rt, b"K1ABC", 0, 0, 0)?;
    link(rt, b"/", 951782400, 951868799, 9)?;
    link(rt, b"ABCDEFGHIJKL", 4102444799, 4102444799, 4294967295)?;
    link(rt, b"ZL/W9XYZ/MM", 1709164799, 1709164800, 10)?;
    link(rt, b"0", 1, 2, 1000000000)?;
    link(rt, b"9Z", 68169599, 68255999, 99)?;
    link(rt, b"A1", 4102444798, 4102444799, 100)?;
    Ok(())
}

fn refused(rt: &impl Print) -> io::Result<()> {
    link(rt, b"", 0, 0, 0)?;
    link(rt, b"ABCDEFGHIJKLM", 0, 0, 0)?;
    link(rt, b"k1abc", 0, 0, 0)?;
    link(rt, b"K1ABC ", 0, 0, 0)?;
    link(rt, b"K1.C", 0, 0, 0)?;
    link(rt, b"K1:C", 0, 0, 0)?;
    link(rt, b"K1@C", 0, 0, 0)?;
    link(rt, b"K1[C", 0, 0, 0)?;
    link(rt, b"k", 5, 4, 0)?;
    link(rt, b"K", 5, 4, 0)?;
    link(rt, b"K", 0, 4102444800, 0)?;
    link(rt, b"K", 4102444800, 4102444800, 0)?;
    link(rt, b"K", 18446744073709551615, 0, 0)?;
    short_output(rt, b"k", 5, 4)?;
    short_output(rt, b"K", 5, 4)?;
    short_output(rt, b"K", 4, 5)?;
    Ok(())
}

fn main(rt: HostRuntime) -> io::Result<()> {
    for hundreds in 15..25 {
        century(&rt, hundreds * 100)?;
    }
    years(&rt)?;
    spread(&rt)?;
    links(&rt)?;
    refused(&rt)
}
