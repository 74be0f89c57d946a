// What a word means, by the kind that is asked for: a number, or none where it is no such word.
ghost use Rattle.std.specs.Prelude.{◌≡◌, ◌+◌, ◌*◌, ◌%◌, ◌≤◌, length};
ghost use Rattle.laws.specs.Bytes.{overwrite};
ghost use Rattle.words.specs.Words.{digit_value as digit_of, digits as digits_of};
ghost use Rattle.words.specs.Words.{decimal_of, bits_of, flag_of, named_of, pair_bytes, hex_count, hex_into};

use crate::digits::{digit, spell};

// N.
pub fn decimal(w: &[u8]) -> Option<u64>
    ensures { result ≡ decimal_of w.now }
{
    if w.is_empty() {
        return None;
    }
    spell(w, 10)
}

// F32 for 8 digits, F64 for 16: the number's bits.
pub fn bits(w: &[u8], n: usize) -> Option<u64>
    ensures { result ≡ bits_of n w.now }
{
    if w.len() < 2 || w.len() - 2 != n {
        return None;
    }
    if w[0] != b'0' || w[1] != b'x' {
        return None;
    }
    spell(&w[2..], 16)
}

// B.
pub fn flag(w: &[u8]) -> Option<u64>
    ensures { result ≡ flag_of w.now }
{
    if w.len() != 1 {
        return None;
    }
    match w[0] {
        b'0' => Some(0),
        b'1' => Some(1),
        _ => None,
    }
}

// The word `name`.
pub fn named(w: &[u8], name: &[u8], value: u64) -> Option<u64>
    ensures { result ≡ named_of name.now value w.now }
{
    if w == name { Some(value) } else { None }
}

// Whether all characters are digits.
fn all_digits(w: &[u8]) -> bool
    ensures { result ≡ digits_of w.now }
{
    for &c in w {
        if digit(c) >= 16 {
            return false;
        }
    }
    true
}

// The byte of a pair.
fn byte(high: u8, low: u8) -> u8
    ensures { result ≡ digit_of high % 16 * 16 + digit_of low % 16 }
{
    (digit(high) % 16 * 16 + digit(low) % 16) as u8
}

// The bytes of the pairs, at the start of `bytes`.
fn put_pairs(w: &[u8], bytes: &mut [u8])
    requires { length (pair_bytes w.now) ≤ length bytes.old }
    ensures { bytes.new ≡ overwrite bytes.old 0 (pair_bytes w.now) }
{
    for k in 0..w.len() / 2 {
        bytes[k] = byte(w[2 * k], w[2 * k + 1]);
    }
}

// HEX, with room for `room` bytes: how many there are.
fn hex_count(w: &[u8], room: usize) -> Option<u64>
    ensures { result ≡ hex_count room w.now }
{
    let n = w.len() / 2;
    if w == b"-".as_slice() {
        return Some(0);
    }
    if all_digits(w) & (w.len() % 2 == 0) & (w.len() > 0) & (n <= room) {
        return Some(n as u64);
    }
    None
}

// HEX: how many bytes there are. They are put at the start of `bytes`.
pub fn hex(w: &[u8], bytes: &mut [u8]) -> Option<u64>
    ensures value { result ≡ hex_count (length bytes.old) w.now }
    ensures bytes_after { bytes.new ≡ hex_into bytes.old w.now }
{
    let n = hex_count(w, bytes.len())?;
    put_pairs(w, bytes);
    Some(n)
}
