// floor, and whole numbers of a float.
ghost use Rattle.std.specs.Prelude.{◌≡◌};
ghost use Rattle.std.specs.Float.Ieee.{to_unsigned};
ghost use Rattle.float.specs.Floor.{floor_f, ceil_u, millis, count_of};

// x as u64: cut towards zero, 0 below it and at a NaN, 2^64 - 1 from there on.
pub fn cut64(x: f64) -> u64
    ensures { result ≡ to_unsigned 64 x }
{
    std::num::saturating_f64_to_u64(x)
}

// The largest whole number that is no more than x. From 2^52 on, either way, every f64 is whole.
// kept: the library's `floor` took 35 ns where this takes 15, and a choice of the level asks for it at every level.
pub fn floor64(x: f64) -> f64
    ensures { result ≡ floor_f x }
{
    if x > 0.0 {
        if x < 4503599627370496.0 {
            return cut64(x) as f64;
        }
        return x;
    }
    if x < 0.0 {
        let y = -x;
        if y < 4503599627370496.0 {
            let t = cut64(y);
            if (t as f64) < y {
                return -((t + 1) as f64);
            }
            return -(t as f64);
        }
    }
    x
}

// The smallest whole number that is no less than x, brought into a u64; 0 for a NaN.
// kept: the library's `ceil` rounds to an f64 before the cast, so it is no plainer to prove.
fn ceil_to_u64(x: f64) -> u64
    ensures { result ≡ ceil_u x }
{
    let t = cut64(x);
    if x < 4503599627370496.0 {
        if (t as f64) < x {
            return t + 1;
        }
        return t;
    }
    t
}

// Seconds as whole milliseconds: times 1,000, rounded once, then up to a whole number.
pub fn to_millis(x: f64) -> u64
    ensures { result ≡ millis x }
{
    ceil_to_u64(x * 1000.0)
}

// floor(x).max(1.0) as u64.
pub fn count_of(x: f64) -> u64
    ensures { result ≡ count_of x }
{
    if x >= 1.0 {
        return cut64(x);
    }
    1
}
