// The sound record's test that two lists of offsets share none.
ghost use Rattle.std.specs.Prelude.{◌≡◌};
ghost use Rattle.area_check.specs.Rows.{none_listed};

use area::removal::{HASHES, contains_hashed, hash};

// Whether none of xs is among ys.
pub fn none_listed(xs: &[u32], ys: &[u32]) -> bool
    ensures { result ≡ none_listed xs.now ys.now }
{
    if ys.len() == 0 {
        return true;
    }
    let mut hashes = [0u8; HASHES];
    hash(&mut hashes, ys);
    for &x in xs {
        if contains_hashed(&hashes, ys, x) {
            return false;
        }
    }
    true
}
