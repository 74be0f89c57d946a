// What bench/area.c measures of the work area, as functions for C: a slice is a pointer and a length.
#![tactic(auto)]

ghost use Rattle.std.specs.Prelude.{◌≡◌, ◌≤◌, length};
ghost use Rattle.area.specs.Layout.{area_bytes, stream_bytes};
ghost use Rattle.area.specs.Table.{rows_from, total};
ghost use Rattle.area.specs.Removal.{removed_pieces};
ghost use Rattle.area.specs.Recut.{merge_table};
ghost use Rattle.bench_area.specs.Checked.{checked};
ghost use Rattle.limits.specs.Limits.{max_pieces, longest_payload};

use area::merging::merge_table;
use area::removal::{HASHES, hash, remove_pieces};
use area_check::flying::all_flying;
use area_check::rows::{held_bits_ok, sent_bits_ok, table_ok};

// The sound record's tests of the table and of the lists.
#[unsafe(no_mangle)]
pub extern "C" fn vanitycrow_sound(
    a: &[u8],
    n: usize,
    short: u32,
    long: u32,
    next: u32,
    flying: u32,
    held: &[u32],
    held_bits: &[u32],
    top: u32,
    sent: &[u32],
    bits: &[u32],
    sent_held: &[u32],
) -> bool
    requires { (n ≤ max_pieces) × (area_bytes ≤ length a.now) × (1 ≤ short) × (short ≤ longest_payload) × (length bits.now ≡ length sent_held.now) }
    ensures { result ≡ checked short long next flying (rows_from a.now 0 n) held.now held_bits.now top sent.now bits.now sent_held.now }
{
    if !table_ok(a, n, short, long, next, flying) {
        return false;
    }
    if !all_flying(a, n, held, long, next) {
        return false;
    }
    if !all_flying(a, n, sent, long, next) {
        return false;
    }
    held_bits_ok(held_bits, top) & sent_bits_ok(bits, sent_held)
}

// Hashes the held pieces and joins the others, and returns how many rows there are then.
#[unsafe(no_mangle)]
pub extern "C" fn vanitycrow_merge(a: &mut [u8], n: usize, max: u32, held: &[u32]) -> usize
    requires { (n ≤ max_pieces) × (area_bytes ≤ length a.old) }
    ensures { (result, a.new) ≡ merge_table held.now max n a.old }
{
    let mut hashes = [0; HASHES];
    hash(&mut hashes, held);
    merge_table(a, n, max, &hashes, held)
}

// Hashes the settled pieces and takes them out, and returns how many rows stay.
#[unsafe(no_mangle)]
pub extern "C" fn vanitycrow_remove(a: &mut [u8], n: usize, used: usize, gone: &[u32]) -> usize
    requires { (n ≤ max_pieces) × (area_bytes ≤ length a.old) × (used ≤ stream_bytes) × (total (rows_from a.old 0 n) ≤ used) }
    ensures { (result ≡ (removed_pieces gone.now n used a.old).0.rows) × (a.new ≡ (removed_pieces gone.now n used a.old).1) }
{
    let mut hashes = [0; HASHES];
    hash(&mut hashes, gone);
    let k = remove_pieces(a, n, used, &hashes, gone);
    k.rows
}
