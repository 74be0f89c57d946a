// Offsets looked for by their hashes, and pieces that leave the work area in one pass.
ghost use Rattle.std.specs.Prelude.{◌≡◌, ◌∷◌, [], ◌+◌, ◌≤◌, ◌<◌, length};
ghost use Rattle.laws.specs.Bytes.{overwrite, part};
ghost use Rattle.laws.specs.Lists.{listed};
ghost use Rattle.area.specs.Layout.{place, area_bytes, stream_bytes};
ghost use Rattle.area.specs.Table.{row_at, rows_from, table_bytes, total};
ghost use Rattle.area.specs.Removal.{hash_count, hash_place, hash_all, Hashed, removed_pieces};
ghost use Rattle.limits.specs.Limits.{max_pieces};

use crate::table::{Row, load_row, store_row};
use byte_copy::shift_left;

// How many hashes of offsets there are.
pub const HASHES: usize = 2048;

fn hash_place(off: u32) -> usize
    ensures { (result ≡ hash_place off) × (result < hash_count) }
{
    (off as u64 * 2654435761 / 2097152 % HASHES as u64) as usize
}

// Sets the hash of each offset of `offs`.
pub fn hash(hashes: &mut [u8], offs: &[u32])
    requires { length hashes.old ≡ hash_count }
    ensures { hashes.new ≡ hash_all hashes.old offs.now }
{
    for &o in offs {
        let k = hash_place(o);
        hashes[k] = 1;
    }
}

// Whether `off` is among `offs`. It reads them all, several at a time.
pub fn contains(offs: &[u32], off: u32) -> bool
    ensures { result ≡ listed off offs.now }
{
    let mut found = false;
    for &o in offs {
        found |= off == o;
    }
    found
}

// The same, where most offsets that are not there have none.
pub fn contains_hashed(hashes: &[u8], offs: &[u32], off: u32) -> bool
    requires { Hashed hashes.now offs.now }
    ensures { result ≡ listed off offs.now }
{
    let k = hash_place(off);
    if hashes[k] == 0 {
        return false;
    }
    contains(offs, off)
}

// The same; it looks at place g first.
fn contains_near(hashes: &[u8], offs: &[u32], g: usize, off: u32) -> bool
    requires { Hashed hashes.now offs.now }
    ensures { result ≡ listed off offs.now }
{
    if g < offs.len() {
        if offs[g] == off {
            return true;
        }
    }
    contains_hashed(hashes, offs, off)
}

// Moves piece i down: its row r to row w, and its bytes from `from` to `to`. Where none before it was taken out, it lies there already.
fn move_piece(a: &mut [u8], i: usize, w: usize, from: usize, to: usize, r: Row)
    requires { (i < max_pieces) × (area_bytes ≤ length a.old) × (w ≤ i) × (to ≤ from) × (from + r.len ≤ stream_bytes) × (r ≡ row_at a.old i) × (w ≡ i → to ≡ from) }
    ensures { a.new ≡ overwrite (overwrite a.old to (part a.old from r.len)) (place w) (table_bytes (r ∷ [])) }
{
    if w == i {
        return;
    }
    let len = r.len as usize;
    shift_left(a, from, to, len);
    store_row(a, w, r);
}

// How many rows stay, and how many bytes they have.
#[derive(Clone, Copy)]
pub struct Kept {
    pub rows: usize,
    pub bytes: usize,
}

// Takes out each of n pieces whose offset is listed, mostly in the rows' order; the first `used` bytes of the stream are in use.
pub fn remove_pieces(a: &mut [u8], n: usize, used: usize, hashes: &[u8], gone: &[u32]) -> Kept
    requires { (n ≤ max_pieces) × (area_bytes ≤ length a.old) × (used ≤ stream_bytes) × (total (rows_from a.old 0 n) ≤ used) × Hashed hashes.now gone.now }
    ensures { (result, a.new) ≡ removed_pieces gone.now n used a.old }
{
    let mut from: usize = 0;
    let mut to: usize = 0;
    let mut w: usize = 0;
    for i in 0..n {
        let r = load_row(a, i);
        let len = r.len as usize;
        if !contains_near(hashes, gone, i - w, r.off) {
            move_piece(a, i, w, from, to, r);
            to += len;
            w += 1;
        }
        from += len;
    }
    if w == n {
        return Kept {
            rows: n,
            bytes: from,
        };
    }
    shift_left(a, from, to, used - from);
    Kept { rows: w, bytes: to }
}
