// Pieces cut to a frame's payload in place.
ghost use Rattle.std.specs.Prelude.{◌≡◌, ℕ, ◌+◌, ◌-◌, ◌/◌, ◌≤◌, ◌<◌, length};
ghost use Rattle.laws.specs.Bytes.{overwrite};
ghost use Rattle.area.specs.Layout.{area_bytes, place};
ghost use Rattle.area.specs.Table.{row_at, rows_from, table_bytes};
ghost use Rattle.area.specs.Recut.{cut_rows, split_rows, split_table};
ghost use Rattle.limits.specs.Limits.{max_pieces, max_taken};

use crate::table::{Row, load_row, store_row};

// How many rows a piece of n bytes becomes.
fn cut_count(n: u32, max: u32) -> usize
    requires { 1 ≤ max }
    ensures { (result ≡ (n - 1) / max + 1) × (result ≤ 4294967296) }
{
    if n == 0 {
        return 1;
    }
    ((n - 1) / max) as usize + 1
}

// How many rows the table becomes.
fn split_count(a: &[u8], n: usize, max: u32) -> usize
    requires { (n ≤ max_pieces) × (area_bytes ≤ length a.now) × (1 ≤ max) }
    ensures { result ≡ length (split_rows max (rows_from a.now 0 n)) }
{
    let mut sum: usize = 0;
    for i in 0..n {
        let r = load_row(a, i);
        sum += cut_count(r.len, max);
    }
    sum
}

// Writes the rows of one piece from row w on.
fn store_cut(a: &mut [u8], w: usize, off: u32, len: u32, max: u32)
    requires { (w + length (cut_rows len max off len) ≤ max_pieces) × (area_bytes ≤ length a.old) × (1 ≤ max) × (off + len ≤ max_taken) }
    ensures { a.new ≡ overwrite a.old (place w) (table_bytes (cut_rows len max off len)) }
{
    let mut o = off;
    let mut left = len;
    let mut i = w;
    // kept: a `while`, since it ends by the bytes that are left; row and offset only go along.
    while max < left {
        store_row(a, i, Row { off: o, len: max });
        o += max;
        left -= max;
        i += 1;
    }
    store_row(a, i, Row { off: o, len: left });
}

// Cuts every piece that is longer than max, and returns how many rows there are then.
pub fn split_table(a: &mut [u8], n: usize, max: u32) -> usize
    requires { (n ≤ max_pieces) × (area_bytes ≤ length a.old) × (1 ≤ max) × (length (split_rows max (rows_from a.old 0 n)) ≤ max_pieces) × ((i : ℕ) → i < n → (row_at a.old i).off + (row_at a.old i).len ≤ max_taken) }
    ensures { (result, a.new) ≡ split_table max n a.old }
{
    let m = split_count(a, n, max);
    let mut w = m;
    for i in (0..n).rev() {
        let r = load_row(a, i);
        w -= cut_count(r.len, max);
        store_cut(a, w, r.off, r.len, max);
    }
    m
}
