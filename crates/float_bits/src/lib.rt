// Floats by their bits (IEEE 754-2019, 3.4); every NaN's pattern means NaN.
#![tactic(auto)]

ghost use Rattle.std.specs.Prelude.{cond, ◌≡◌, ℕ, Float};
ghost use Rattle.std.specs.Float.{Format, binary32, binary64};
ghost use Rattle.std.specs.Float.Ieee.{of_bits, to_bits, ne};

// A float whose pattern is a number of type `Bits`.
pub trait Pattern: Copy {
    type Bits;

    ghost format: { Format };

    ghost value: { Self → Float };

    ghost number: { Self.Bits → ℕ };

    // The pattern that stands for NaN.
    ghost ones: { ℕ };

    // The float of a pattern.
    fn of_bits(n: Self::Bits) -> Self
        ensures { value result ≡ of_bits format (number n) };

    // The pattern of a float; all ones for NaN, the one value that differs from itself.
    fn pattern(self) -> Self::Bits
        ensures { number result ≡ cond (ne (value self) (value self)) ones (to_bits format (value self)) };
}

impl Pattern for f64 {
    type Bits = u64;

    ghost format = { binary64 };

    ghost value = { λ x. x };

    ghost number = { λ n. n };

    ghost ones = { 18446744073709551615 };

    fn of_bits(n: u64) -> f64 {
        if n % 4503599627370496 == 0 {
            return f64::from_bits(n);
        }
        if n % 9223372036854775808 / 4503599627370496 == 2047 {
            return f64::NAN;
        }
        f64::from_bits(n)
    }

    fn pattern(self) -> u64 {
        if self.is_nan() {
            return u64::MAX;
        }
        self.to_bits()
    }
}

impl Pattern for f32 {
    type Bits = u32;

    ghost format = { binary32 };

    ghost value = { λ x. x };

    ghost number = { λ n. n };

    ghost ones = { 4294967295 };

    fn of_bits(n: u32) -> f32 {
        if n % 8388608 == 0 {
            return f32::from_bits(n);
        }
        if n % 2147483648 / 8388608 == 255 {
            return f32::NAN;
        }
        f32::from_bits(n)
    }

    fn pattern(self) -> u32 {
        if self.is_nan() {
            return u32::MAX;
        }
        self.to_bits()
    }
}
