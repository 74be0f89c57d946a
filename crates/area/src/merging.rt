// Neighbouring pieces joined in place.
ghost use Rattle.std.specs.Prelude.{◌≡◌, ◌≤◌, length};
ghost use Rattle.area.specs.Layout.{area_bytes};
ghost use Rattle.area.specs.Removal.{Hashed};
ghost use Rattle.area.specs.Recut.{joins_row, merge_table};
ghost use Rattle.limits.specs.Limits.{max_pieces};

use crate::removal::contains_hashed;
use crate::table::{Row, load_row, store_row};

// Whether q is joined to p.
fn joins(p: Row, q: Row, max: u32, hashes: &[u8], held: &[u32]) -> bool
    requires { Hashed hashes.now held.now }
    ensures { result ≡ joins_row held.now max p q }
{
    let po = p.off;
    let qo = q.off;
    if po as u64 + p.len as u64 != qo as u64 {
        return false;
    }
    if (max as u64) < p.len as u64 + q.len as u64 {
        return false;
    }
    if contains_hashed(hashes, held, po) {
        return false;
    }
    !contains_hashed(hashes, held, qo)
}

// Joins neighbours, and returns how many rows there are then.
pub fn merge_table(a: &mut [u8], n: usize, max: u32, hashes: &[u8], held: &[u32]) -> usize
    requires { (n ≤ max_pieces) × (area_bytes ≤ length a.old) × Hashed hashes.now held.now }
    ensures { (result, a.new) ≡ merge_table held.now max n a.old }
{
    if n == 0 {
        return 0;
    }
    let mut p = load_row(a, 0);
    let mut w = 0;
    for i in 1..n {
        let q = load_row(a, i);
        if joins(p, q, max, hashes, held) {
            p.len += q.len;
        } else {
            store_row(a, w, p);
            w += 1;
            p = q;
        }
    }
    store_row(a, w, p);
    w + 1
}
