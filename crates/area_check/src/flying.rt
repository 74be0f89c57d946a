// The sound record's test of offsets: distinct, each that of a row.
ghost use Rattle.std.specs.Prelude.{◌≡◌, true, ◌≤◌, length};
ghost use Rattle.laws.specs.Lists.{listed};
ghost use Rattle.area.specs.Layout.{area_bytes};
ghost use Rattle.area.specs.Table.{rows_from};
ghost use Rattle.area_check.specs.Rows.{ascends, row_offs, all_flying};
ghost use Rattle.limits.specs.Limits.{max_pieces};

use area::removal::{HASHES, contains_hashed, hash};
use area::table::load_row;

// Whether a row has this offset.
fn is_flying(a: &[u8], n: usize, off: u32, long: u32, next: u32) -> bool
    requires { (n ≤ max_pieces) × (area_bytes ≤ length a.now) × (ascends long next 0 (rows_from a.now 0 n) ≡ true) }
    ensures { result ≡ listed off (row_offs (rows_from a.now 0 n)) }
{
    let mut low = 0;
    let mut high = n;
    // kept: a search by hand, since the rows are bytes of the work area and no slice of rows.
    while low < high {
        let mid = low + (high - low) / 2;
        let r = load_row(a, mid);
        if r.off == off {
            return true;
        }
        if r.off < off {
            low = mid + 1;
        } else {
            high = mid;
        }
    }
    false
}

// The same; it looks first at the row that has `behind` rows behind it.
fn flies_near(a: &[u8], n: usize, behind: usize, off: u32, long: u32, next: u32) -> bool
    requires { (n ≤ max_pieces) × (area_bytes ≤ length a.now) × (ascends long next 0 (rows_from a.now 0 n) ≡ true) }
    ensures { result ≡ listed off (row_offs (rows_from a.now 0 n)) }
{
    if behind < n {
        let r = load_row(a, n - 1 - behind);
        if r.off == off {
            return true;
        }
    }
    is_flying(a, n, off, long, next)
}

// Whether xs are distinct, each the offset of a row. From the end, so that those behind are hashed; mostly in the rows' order.
pub fn all_flying(a: &[u8], n: usize, xs: &[u32], long: u32, next: u32) -> bool
    requires { (n ≤ max_pieces) × (area_bytes ≤ length a.now) × (ascends long next 0 (rows_from a.now 0 n) ≡ true) }
    ensures { result ≡ all_flying xs.now (row_offs (rows_from a.now 0 n)) }
{
    if xs.len() == 0 {
        return true;
    }
    let mut hashes = [0u8; HASHES];
    for i in (0..xs.len()).rev() {
        let x = xs[i];
        if !flies_near(a, n, xs.len() - 1 - i, x, long, next) {
            return false;
        }
        if contains_hashed(&hashes, &xs[i + 1..], x) {
            return false;
        }
        hash(&mut hashes, &xs[i..i + 1]);
    }
    true
}
