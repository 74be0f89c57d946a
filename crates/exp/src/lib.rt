// Document 01's exp, for f64 and f32; f64 to f32; and holds.
#![tactic(auto)]

ghost use Rattle.std.specs.Prelude.{◌≡◌, T, pos, negsuc, int_le};
ghost use Rattle.std.specs.Float.Ieee.{neg, to_signed};
ghost use Rattle.ieee.specs.Range.{In, w64};
ghost use Rattle.exp.specs.Exp.{horner, shifted, reduced, E, E32};

// Powers of two.
mod power;

// f64 to f32.
pub mod narrow;

// Holds.
pub mod hold;

// The sum of r^n / n! for n from 0 to 13, from the highest down.
fn taylor(r: f64) -> f64
    ensures { result ≡ horner r }
{
    let p12 = 1.0 / 6227020800.0 * r + 1.0 / 479001600.0;
    let p11 = p12 * r + 1.0 / 39916800.0;
    let p10 = p11 * r + 1.0 / 3628800.0;
    let p9 = p10 * r + 1.0 / 362880.0;
    let p8 = p9 * r + 1.0 / 40320.0;
    let p7 = p8 * r + 1.0 / 5040.0;
    let p6 = p7 * r + 1.0 / 720.0;
    let p5 = p6 * r + 1.0 / 120.0;
    let p4 = p5 * r + 1.0 / 24.0;
    let p3 = p4 * r + 1.0 / 6.0;
    let p2 = p3 * r + 1.0 / 2.0;
    let p1 = p2 * r + 1.0 / 1.0;
    p1 * r + 1.0 / 1.0
}

// x / ln 2, moved by a half away from zero.
fn shift(x: f64) -> f64
    ensures { result ≡ shifted x }
{
    let t = x * 1.4426950408889634;
    if x < 0.0 { t - 0.5 } else { t + 0.5 }
}

// x - k ln 2, with ln 2 in two parts.
fn reduce(x: f64, k: f64) -> f64
    ensures { result ≡ reduced x k }
{
    (x - k * 6.93147180369123816490e-01) - k * 1.90821492927058770002e-10
}

// The whole number nearest to x / ln 2, or next to it.
fn whole_shift(x: f64) -> i64
    requires { In (neg (w64 708)) (w64 709) x }
    ensures { (result ≡ to_signed 63 (shifted x)) × T (int_le (negsuc 1021) result) × T (int_le result (pos 1023)) }
{
    std::num::truncating_f64_to_i64(shift(x))
}

// e^x: 0 below -708, infinity above 709, a NaN at a NaN.
pub fn exp64(x: f64) -> f64
    ensures { result ≡ E x }
{
    if x < -708.0 {
        return 0.0;
    }
    if x > 709.0 {
        return 1.0 / 0.0;
    }
    if x != x {
        return x;
    }
    let k = whole_shift(x);
    taylor(reduce(x, std::num::nearest_i64_to_f64(k))) * crate::power::power_of_two(k)
}

// exp of an f32: widened, E, narrowed.
pub fn exp32(x: f32) -> f32
    ensures { result ≡ E32 x }
{
    crate::narrow::narrowed(exp64(std::num::f32_to_f64_with_nan(x)))
}
