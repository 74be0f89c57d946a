// total_cmp, and the median of three.
ghost use Rattle.std.specs.Prelude.{◌≡◌, [], ◌∷◌, slice_index_or};
ghost use Rattle.std.specs.Float.{nan};
ghost use Rattle.float.specs.Total.{total_le, insert, median_f};

use crate::binary::Binary;

// Whether x.total_cmp(&y) is no Greater. Of two that are equal the bits tell the zeros apart; a NaN comes first.
// kept: the library's `total_cmp` asks that neither is a NaN.
pub fn total_le<F: Binary>(x: F, y: F) -> bool
    ensures { result ≡ total_le (F.value x) (F.value y) }
{
    if x.not_a_number() | x.below(y) {
        return true;
    }
    x.level(y)
}

// The second of x put among p and q, which are in order.
fn second32(x: f32, p: f32, q: f32) -> f32
    ensures { result ≡ slice_index_or (insert x (p ∷ q ∷ [])) 1 nan }
{
    if total_le(x, p) {
        return p;
    }
    if total_le(x, q) {
        return x;
    }
    q
}

// The second of three in that order.
pub fn median32(a: f32, b: f32, c: f32) -> f32
    ensures { result ≡ median_f a b c }
{
    if total_le(b, c) {
        return second32(a, b, c);
    }
    second32(a, c, b)
}
