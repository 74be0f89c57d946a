// Rows of numbers in a section, low byte first, floats by their bits.
ghost use Rattle.std.specs.Prelude.{◌≡◌, ℕ, map, ◌+◌, ◌*◌, ◌≤◌, length, eqb};
ghost use Rattle.std.specs.Float.{binary32, binary64};
ghost use Rattle.std.specs.Float.Ieee.{of_bits};
ghost use Rattle.laws.specs.Bytes.{overwrite};
ghost use Rattle.laws.specs.Little.{le};
ghost use Rattle.card.specs.Card.{at as value_at, numbers_at, bits32, bits64, flag_byte, packed};

use byte_copy::Little;
use float_bits::Pattern;

// What a place of a section holds: a number of BYTES bytes, low byte first, and what it stands for.
pub(crate) trait Placed: Copy {
    ghost BYTES: { ℕ };

    // what a number stands for
    ghost meant: { ℕ → Self };

    // the number that is written
    ghost number: { Self → ℕ };

    const BYTES: usize;

    fn read(a: &[u8], at: usize) -> Self
        requires { at + BYTES ≤ length a.now }
        ensures { result ≡ meant (value_at BYTES a.now at) };

    fn put(self, out: &mut [u8], at: usize)
        requires { at + BYTES ≤ length out.old }
        ensures { out.new ≡ overwrite out.old at (le BYTES (number self)) };
}

impl Placed for u32 {
    ghost BYTES = { 4 };

    ghost meant = { λ n. n };

    ghost number = { λ n. n };

    const BYTES: usize = 4;

    fn read(a: &[u8], at: usize) -> u32 {
        u32::load(a, at)
    }

    fn put(self, out: &mut [u8], at: usize) {
        u32::store(out, at, self);
    }
}

impl Placed for f64 {
    ghost BYTES = { 8 };

    ghost meant = { of_bits binary64 };

    ghost number = { bits64 };

    const BYTES: usize = 8;

    fn read(a: &[u8], at: usize) -> f64 {
        f64::of_bits(u64::load(a, at))
    }

    fn put(self, out: &mut [u8], at: usize) {
        u64::store(out, at, self.pattern());
    }
}

impl Placed for f32 {
    ghost BYTES = { 4 };

    ghost meant = { of_bits binary32 };

    ghost number = { bits32 };

    const BYTES: usize = 4;

    fn read(a: &[u8], at: usize) -> f32 {
        f32::of_bits(u32::load(a, at))
    }

    fn put(self, out: &mut [u8], at: usize) {
        u32::store(out, at, self.pattern());
    }
}

// On is 1; what is neither 0 nor 1 is refused before it is read.
impl Placed for bool {
    ghost BYTES = { 1 };

    ghost meant = { λ n. eqb n 1 };

    ghost number = { flag_byte };

    const BYTES: usize = 1;

    fn read(a: &[u8], at: usize) -> bool {
        a[at] == 1
    }

    fn put(self, out: &mut [u8], at: usize) {
        out[at] = u8::from(self);
    }
}

pub(crate) fn row<T: Placed, const N: usize>(a: &[u8], at: usize) -> [T; N]
    requires { at + T.BYTES * N ≤ length a.now }
    ensures { result ≡ map T.meant (numbers_at T.BYTES N a.now at) }
{
    std::array::from_fn(
        |l: usize| -> T
            requires { at + T.BYTES * (l + 1) ≤ length a.now }
        { T::read(a, at + T::BYTES * l) },
    )
}

pub(crate) fn put_row<T: Placed>(out: &mut [u8], at: usize, x: &[T])
    requires { at + T.BYTES * length x.now ≤ length out.old }
    ensures { out.new ≡ overwrite out.old at (packed T.BYTES (map T.number x.now)) }
{
    for (l, v) in x.iter().enumerate() {
        v.put(out, at + T::BYTES * l);
    }
}
