// A hold that doubles with each failure, up to a cap.
ghost use Rattle.std.specs.Prelude.{◌≡◌, ◌<◌};
ghost use Rattle.exp.specs.Hold.{hold_of};

// (first * 2^n).min(cap)
pub fn hold(first: f64, n: u64, cap: f64) -> f64
    requires { n < 1024 }
    ensures { result ≡ hold_of first n cap }
{
    float::pick::min(first * crate::power::power_at(n + 1023), cap)
}
