// Rust's min, max, clamp and abs, for every input.
ghost use Rattle.std.specs.Prelude.{◌≡◌};
ghost use Rattle.float.specs.Pick.{min_f, max_f, clamp_f, abs_f};

use crate::binary::Binary;

// kept: the library's `min` and `max` leave open which of two zeros they give; these give the first.
pub fn min<F: Binary>(x: F, y: F) -> F
    ensures { F.value result ≡ min_f (F.value x) (F.value y) }
{
    if x.not_a_number() | y.below(x) {
        return y;
    }
    x
}

pub fn max<F: Binary>(x: F, y: F) -> F
    ensures { F.value result ≡ max_f (F.value x) (F.value y) }
{
    if x.not_a_number() | x.below(y) {
        return y;
    }
    x
}

// kept: the library's `clamp` asks that the low end is not above the high end.
pub fn clamp64(x: f64, lo: f64, hi: f64) -> f64
    ensures { result ≡ clamp_f x lo hi }
{
    if x < lo {
        if hi < lo {
            return hi;
        }
        return lo;
    }
    if hi < x {
        return hi;
    }
    x
}

pub fn abs32(x: f32) -> f32
    ensures { result ≡ abs_f x }
{
    x.abs()
}
