// f64 to f32, rounded to the nearest, ties to even.
ghost use Rattle.std.specs.Prelude.{◌≡◌, false, T, pos, if◌then◌else◌};
ghost use Rattle.std.specs.Float.Ieee.{lt};
ghost use Rattle.std.specs.Float.{fin, inf};
ghost use Rattle.ieee.specs.Range.{w64};
ghost use Rattle.exp.specs.Narrow.{narrow};

// a with the digits of an f32. Adding 2^29 times the place of a's leading digit, and 2^-97 at least, drops the digits
// that an f32 does not hold: the sum is rounded at the place where an f32 ends.
fn rounded(a: f64) -> f64
    requires fact_1 { T (lt (w64 0) a) }
    requires fact_2 { T (lt a (fin false 1 (pos 128))) }
    ensures { narrow a ≡ (if lt result (fin false 1 (pos 128)) then result else inf false) }
{
    // 2^-126
    if a < 1.1754943508222875e-38 {
        let m = crate::power::power_at(926);
        return (a + m) - m;
    }
    let m = crate::power::power_at((f64::to_bits(a) >> 52) + 29);
    (a + m) - m
}

// An a above 0.
fn narrow_above(a: f64) -> f32
    requires { T (lt (w64 0) a) }
    ensures { result ≡ narrow a }
{
    // 2^128
    if a < 340282366920938463463374607431768211456.0 {
        let y = rounded(a);
        if y < 340282366920938463463374607431768211456.0 {
            return y as f32;
        }
        return 1.0 / 0.0;
    }
    1.0 / 0.0
}

// x as f32.
// kept: the library's rounding took twice the time (15 ns for 8), and a choice of the level asks for it at every level.
pub fn narrowed(x: f64) -> f32
    ensures { result ≡ narrow x }
{
    if x > 0.0 {
        return narrow_above(x);
    }
    if x < 0.0 {
        return -narrow_above(-x);
    }
    if x != x {
        return 0.0 / 0.0;
    }
    x as f32
}
