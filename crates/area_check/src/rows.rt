// The sound record's tests of the table and of lists of bits.
ghost use Rattle.std.specs.Prelude.{◌≡◌, ◌≤◌, length};
ghost use Rattle.ledger.specs.Cover.{ceil};
ghost use Rattle.area.specs.Layout.{area_bytes};
ghost use Rattle.area.specs.Table.{rows_from};
ghost use Rattle.area_check.specs.Rows.{table_ok, held_bits_ok, sent_bits_ok};
ghost use Rattle.limits.specs.Limits.{max_pieces, max_taken, longest_payload};

use area::table::load_row;
use limits::{MAX_BITS, MAX_PIECES};

// Held bits of an outstanding frame at most.
const MAX_HELD: u32 = 49151;

// Short frames for a piece of len bytes. It divides only where one doesn't do.
fn shorts_of(len: u64, short: u32) -> u64
    requires { (1 ≤ len) × (len ≤ max_taken) × (1 ≤ short) }
    ensures { result ≡ ceil len short }
{
    if len <= short as u64 {
        return 1;
    }
    (len + (short as u64 - 1)) / short as u64
}

// The rows ascend, do not overlap, have 1 to long bytes, end by next, have flying bytes together, and can be cut to short in 2,048 pieces.
pub fn table_ok(a: &[u8], n: usize, short: u32, long: u32, next: u32, flying: u32) -> bool
    requires { (n ≤ max_pieces) × (area_bytes ≤ length a.now) × (1 ≤ short) × (short ≤ longest_payload) }
    ensures { result ≡ table_ok short long next flying (rows_from a.now 0 n) }
{
    let mut from: u64 = 0;
    let mut sum: u64 = 0;
    let mut shorts: u64 = 0;
    for i in 0..n {
        let r = load_row(a, i);
        let off = r.off as u64;
        let len = r.len as u64;
        if off < from {
            return false;
        }
        if len == 0 {
            return false;
        }
        if long < r.len {
            return false;
        }
        from = off + len;
        sum += len;
        shorts += shorts_of(len, short);
    }
    if (next as u64) < from {
        return false;
    }
    if sum != flying as u64 {
        return false;
    }
    shorts <= MAX_PIECES as u64
}

// Whether each has 1 to below `top` bits.
pub fn held_bits_ok(bits: &[u32], top: u32) -> bool
    ensures { result ≡ held_bits_ok top bits.now }
{
    bits.iter().all(|b| 0 < *b && *b < top)
}

// Whether each frame has 1 to 16,384 bits, and held bits from its bits to 49,151.
pub fn sent_bits_ok(bits: &[u32], held: &[u32]) -> bool
    requires { length bits.now ≡ length held.now }
    ensures { result ≡ sent_bits_ok bits.now held.now }
{
    for (&b, &h) in bits.iter().zip(held) {
        if !((0 < b) & (b <= MAX_BITS)) {
            return false;
        }
        if !((b <= h) & (h <= MAX_HELD)) {
            return false;
        }
    }
    true
}
