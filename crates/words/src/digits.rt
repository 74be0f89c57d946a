// Digits, and numbers that are spelled by them.
ghost use Rattle.std.specs.Prelude.{◌≡◌, ◌<◌};
ghost use Rattle.words.specs.Words.{digit_value as digit_of, any_digit, one_digit_more as shifted_of, spelled};

// A digit's value, or 16 for another character.
pub(crate) fn digit(c: u8) -> u64
    ensures { result ≡ digit_of c }
{
    match c {
        b'0'..=b'9' => u64::from(c - b'0'),
        b'a'..=b'f' => u64::from(c - b'a') + 10,
        _ => 16,
    }
}

// The same with capitals.
fn any_digit(c: u8) -> u64
    ensures { result ≡ any_digit c }
{
    match c {
        b'A'..=b'F' => u64::from(c - b'A') + 10,
        _ => digit(c),
    }
}

// One digit more.
fn shifted(base: u64, n: u64, c: u8) -> Option<u64>
    ensures { result ≡ shifted_of base n c }
{
    let d = any_digit(c);
    if d >= base {
        return None;
    }
    n.checked_mul(base)?.checked_add(d)
}

// The number that digits spell.
pub(crate) fn spell(w: &[u8], base: u64) -> Option<u64>
    ensures { result ≡ spelled base 0 w.now }
{
    let mut n = 0;
    for &c in w {
        n = shifted(base, n, c)?;
    }
    Some(n)
}
