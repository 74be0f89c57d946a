// The sound record's tests of its counts, and of its lists against the rows.
ghost use Rattle.std.specs.Prelude.{◌≡◌, true, ◌≤◌, length};
ghost use Rattle.area.specs.Layout.{area_bytes};
ghost use Rattle.area.specs.Table.{rows_from};
ghost use Rattle.area_check.specs.Rows.{ascends, row_offs};
ghost use Rattle.soundness.specs.Soundness.{counts_ok, lists_ok};

use area_check::flying::all_flying;
use area_check::rows::{held_bits_ok, sent_bits_ok};
use area_check::unlisted::none_listed;
use limits::{MAX_FLYING, MAX_PIECES, MAX_SLOTS, MAX_TAKEN, MAX_WAITING};
use record::Sender;

pub fn counts_ok(s: Sender) -> bool
    ensures { result ≡ counts_ok s }
{
    let h = s.at_peer;
    let b = s.last_burst;
    let c = s.counts;
    if !((h.n <= MAX_SLOTS) & (h.rest <= h.n) & (b.n <= MAX_SLOTS)) {
        return false;
    }
    (b.n + h.rest <= MAX_SLOTS)
        & ((c.waiting <= MAX_WAITING)
            & ((c.flying <= MAX_FLYING)
                & ((c.pieces <= MAX_PIECES)
                    & ((c.next_offset as u64 + c.waiting as u64 <= MAX_TAKEN as u64)
                        & (c.bytes_acked as u64 + c.flying as u64 == c.next_offset as u64)))))
}

// Held pieces and outstanding frames, where there may be some, against the rows.
fn listed_ok(s: Sender, a: &[u8], long: u32, top: u32) -> bool
    requires { (counts_ok s ≡ true) × (area_bytes ≤ length a.now) × (ascends long s.counts.next_offset 0 (rows_from a.now 0 s.counts.pieces) ≡ true) }
    ensures { result ≡ lists_ok top s.at_peer s.last_burst (row_offs (rows_from a.now 0 s.counts.pieces)) }
{
    let h = s.at_peer;
    let b = s.last_burst;
    let c = s.counts;
    let n = h.n;
    let k = h.n - h.rest;
    let m = b.n;
    let rows = c.pieces;
    let next = c.next_offset;
    let held = h.off;
    let bits = h.bits;
    let offs = b.off;
    let went = b.bits;
    let then = b.held;
    if !all_flying(a, rows, &held[..n], long, next) {
        return false;
    }
    if !held_bits_ok(&bits[..n], top) {
        return false;
    }
    if !all_flying(a, rows, &offs[..m], long, next) {
        return false;
    }
    if !none_listed(&offs[..m], &held[k..n]) {
        return false;
    }
    sent_bits_ok(&went[..m], &then[..m])
}

// Held pieces and outstanding frames against the rows. Where there are none, listed_ok, which copies the lists, is not entered.
pub fn lists_ok(s: Sender, a: &[u8], long: u32, top: u32) -> bool
    requires { (counts_ok s ≡ true) × (area_bytes ≤ length a.now) × (ascends long s.counts.next_offset 0 (rows_from a.now 0 s.counts.pieces) ≡ true) }
    ensures { result ≡ lists_ok top s.at_peer s.last_burst (row_offs (rows_from a.now 0 s.counts.pieces)) }
{
    if (s.at_peer.n == 0) & (s.last_burst.n == 0) {
        return true;
    }
    listed_ok(s, a, long, top)
}
