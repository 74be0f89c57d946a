// What f32 and f64 share: the tests by which the functions here pick.
ghost use Rattle.std.specs.Prelude.{◌≡◌, Float, is_nan};
ghost use Rattle.std.specs.Float.Ieee.{lt};
ghost use Rattle.float.specs.Total.{level};

pub trait Binary: Copy {
    // The value in IEEE 754.
    ghost value: { Self → Float };

    fn not_a_number(self) -> bool
        ensures { result ≡ is_nan (value self) };

    fn below(self, other: Self) -> bool
        ensures { result ≡ lt (value self) (value other) };

    // Whether the two are equal, and not 0 before -0, which the bits tell apart.
    fn level(self, other: Self) -> bool
        ensures { result ≡ level (value self) (value other) };
}

impl Binary for f32 {
    ghost value = { λ x. x };

    fn not_a_number(self) -> bool {
        self != self
    }

    fn below(self, other: f32) -> bool {
        self < other
    }

    fn level(self, other: f32) -> bool {
        if self == other {
            return f32::to_bits(other) <= f32::to_bits(self);
        }
        false
    }
}

impl Binary for f64 {
    ghost value = { λ x. x };

    fn not_a_number(self) -> bool {
        self != self
    }

    fn below(self, other: f64) -> bool {
        self < other
    }

    fn level(self, other: f64) -> bool {
        if self == other {
            return f64::to_bits(other) <= f64::to_bits(self);
        }
        false
    }
}
