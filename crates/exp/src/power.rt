// Powers of two by their bit pattern.
ghost use Rattle.std.specs.Prelude.{◌≡◌, ◌<◌, T, pos, negsuc, int_le};
ghost use Rattle.std.specs.Float.Ieee.{minus};
ghost use Rattle.ieee.specs.Power.{power, biased};

// 2^(j - 1023): the pattern with the exponent's field j and no digits.
pub fn power_at(j: u64) -> f64
    requires fact_1 { 0 < j }
    requires fact_2 { j < 2047 }
    ensures { result ≡ power (minus j 1023) }
{
    f64::from_bits(j * 4503599627370496)
}

// k + 1023.
fn field_of(k: i64) -> u64
    requires fact_1 { T (int_le (negsuc 1021) k) }
    requires fact_2 { T (int_le k (pos 1023)) }
    ensures { result ≡ biased k }
{
    (k + 1023) as u64
}

// 2^k.
pub fn power_of_two(k: i64) -> f64
    requires fact_1 { T (int_le (negsuc 1021) k) }
    requires fact_2 { T (int_le k (pos 1023)) }
    ensures { result ≡ power k }
{
    power_at(field_of(k))
}
