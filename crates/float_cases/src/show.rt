// One line for each case. A NaN has no bits that mean anything, so it is written as a word.
ghost use Rattle.std.specs.Prelude.{◌<◌, ◌≤◌};

use std::io;

fn put64(rt: &impl Print, x: f64) -> io::Result<()> {
    if x.is_nan() {
        return print!(rt; " nan");
    }
    let bits = x.to_bits();
    print!(rt; " {bits:016x}")
}

fn put32(rt: &impl Print, x: f32) -> io::Result<()> {
    if x.is_nan() {
        return print!(rt; " nan");
    }
    let bits = x.to_bits();
    print!(rt; " {bits:08x}")
}

fn put(rt: &impl Print, n: u64) -> io::Result<()> {
    print!(rt; " {n}")
}

fn answer(rt: &impl Print, b: bool) -> io::Result<()> {
    print!(rt; " {b}")
}

fn end(rt: &impl Print) -> io::Result<()> {
    println!(rt; "")
}

// narrow, floor, as u64, floor(x).max(1.0) as u64, milliseconds, E.
pub(crate) fn one64(rt: &impl Print, x: f64) -> io::Result<()> {
    print!(rt; "one64")?;
    put64(rt, x)?;
    put32(rt, exp::narrow::narrowed(x))?;
    put64(rt, float::whole::floor64(x))?;
    put(rt, float::whole::cut64(x))?;
    put(rt, float::whole::count_of(x))?;
    put(rt, float::whole::to_millis(x))?;
    put64(rt, exp::exp64(x))?;
    end(rt)
}

// abs, E.
pub(crate) fn one32(rt: &impl Print, x: f32) -> io::Result<()> {
    print!(rt; "one32")?;
    put32(rt, x)?;
    put32(rt, float::pick::abs32(x))?;
    put32(rt, exp::exp32(x))?;
    end(rt)
}

// min, max, total_cmp not Greater.
pub(crate) fn two64(rt: &impl Print, x: f64, y: f64) -> io::Result<()> {
    print!(rt; "two64")?;
    put64(rt, x)?;
    put64(rt, y)?;
    put64(rt, float::pick::min(x, y))?;
    put64(rt, float::pick::max(x, y))?;
    answer(rt, float::order::total_le(x, y))?;
    end(rt)
}

// min, max, total_cmp not Greater, the share x after a burst of which y came through.
pub(crate) fn two32(rt: &impl Print, x: f32, y: f32) -> io::Result<()> {
    print!(rt; "two32")?;
    put32(rt, x)?;
    put32(rt, y)?;
    put32(rt, float::pick::min(x, y))?;
    put32(rt, float::pick::max(x, y))?;
    answer(rt, float::order::total_le(x, y))?;
    put32(rt, float::gear::share(x, y))?;
    end(rt)
}

pub(crate) fn median(rt: &impl Print, a: f32, b: f32, c: f32) -> io::Result<()> {
    print!(rt; "median")?;
    put32(rt, a)?;
    put32(rt, b)?;
    put32(rt, c)?;
    put32(rt, float::order::median32(a, b, c))?;
    end(rt)
}

pub(crate) fn clamp(rt: &impl Print, x: f64, lo: f64, hi: f64) -> io::Result<()> {
    print!(rt; "clamp")?;
    put64(rt, x)?;
    put64(rt, lo)?;
    put64(rt, hi)?;
    put64(rt, float::pick::clamp64(x, lo, hi))?;
    end(rt)
}

pub(crate) fn held(rt: &impl Print, first: f64, n: u64, cap: f64) -> io::Result<()>
    requires { n < 1024 }
{
    print!(rt; "held")?;
    put64(rt, first)?;
    put(rt, n)?;
    put64(rt, cap)?;
    put64(rt, exp::hold::hold(first, n, cap))?;
    end(rt)
}

pub(crate) fn seconds(rt: &impl Print, pre: f64, rate: f64, bits: u64) -> io::Result<()> {
    print!(rt; "seconds")?;
    put64(rt, pre)?;
    put64(rt, rate)?;
    put(rt, bits)?;
    put64(rt, float::gear::duration(pre, rate, bits))?;
    end(rt)
}

pub(crate) fn lost(rt: &impl Print, got: u64, sent: u64) -> io::Result<()>
    requires { (got ≤ sent) × (sent ≤ 64) }
{
    print!(rt; "lost")?;
    put(rt, got)?;
    put(rt, sent)?;
    put32(rt, float::gear::loss(got, sent))?;
    end(rt)
}

pub(crate) fn sum(rt: &impl Print, a: u64, b: u64) -> io::Result<()> {
    print!(rt; "sum")?;
    put(rt, a)?;
    put(rt, b)?;
    put(rt, a.saturating_add(b))?;
    end(rt)
}
