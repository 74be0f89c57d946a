// The frames of a burst: which pieces go, and where their bytes lie (`slots` of `data_burst`, sender.rs).
ghost use Rattle.std.specs.Prelude.{◌≡◌, ℕ, ◌+◌, ◌≤◌, ◌<◌, length, take, get_or};
ghost use Rattle.harq.specs.Held.{increment_of};
ghost use Rattle.area.specs.Layout.{area_bytes, stream_bytes};
ghost use Rattle.area.specs.Table.{rows_from, total};
ghost use Rattle.area.specs.Removal.{Hashed};
ghost use Rattle.frames.specs.Slots.{push_all, increment_slots, unheld_slots, added_pieces};
ghost use Rattle.limits.specs.Limits.{max_pieces, max_slots, max_held, max_taken};

use area::lookup::find;
use area::removal::contains_hashed;
use area::table::{Row, load_row, store_row};
use harq::Harq;
use limits::MAX_SLOTS;

// A frame: the piece's offset, the bits that go, the bits that the peer then holds, and where the bytes lie in the stream.
#[derive(Clone, Copy)]
pub struct Slot {
    pub off: u32,
    pub bits: u32,
    pub held: u32,
    pub start: u32,
    pub len: u32,
}

// The frames of a burst; n of them.
// kept: arrays with a count, since memory is fixed: no heap, and so no list that grows.
#[derive(Clone, Copy)]
pub struct Slots {
    pub off: [u32; MAX_SLOTS],
    pub bits: [u32; MAX_SLOTS],
    pub held: [u32; MAX_SLOTS],
    pub start: [u32; MAX_SLOTS],
    pub len: [u32; MAX_SLOTS],
    pub n: usize,
}

// The increments of the pieces at `offs`, of which the peer holds `bits`.
pub fn increments(
    q: Harq,
    slot: u32,
    a: &[u8],
    n: usize,
    offs: &[u32],
    bits: &[u32],
    given: Slots,
) -> Slots
    requires { (n ≤ max_pieces) × (area_bytes ≤ length a.now) × (total (rows_from a.now 0 n) ≤ stream_bytes) × (given.n + length offs.now ≤ max_slots) × (length bits.now ≡ length offs.now) × ((j : ℕ) → j < length bits.now → get_or bits.now j 0 + increment_of q (get_or bits.now j 0) slot ≤ max_held) }
    ensures { result ≡ push_all given (increment_slots q slot (rows_from a.now 0 n) offs.now bits.now) }
{
    let mut s = given;
    for i in 0..offs.len() {
        let off = offs[i];
        let h = bits[i];
        let more = q.increment(h, slot);
        let p = find(a, n, off);
        let k = s.n;
        s.off[k] = off;
        s.bits[k] = more;
        s.held[k] = h + more;
        s.start[k] = p.start as u32;
        s.len[k] = p.len as u32;
        s.n = k + 1;
    }
    s
}

// The oldest pieces that are not held, at most `room`, whole.
pub fn old_pieces(
    a: &[u8],
    n: usize,
    hashes: &[u8],
    held: &[u32],
    room: usize,
    bits: u32,
    given: Slots,
) -> Slots
    requires { (n ≤ max_pieces) × (area_bytes ≤ length a.now) × (total (rows_from a.now 0 n) ≤ stream_bytes) × (given.n + room ≤ max_slots) × Hashed hashes.now held.now }
    ensures { result ≡ push_all given (take room (unheld_slots held.now bits 0 (rows_from a.now 0 n))) }
{
    let mut s = given;
    let mut left = room;
    let mut start: u32 = 0;
    for i in 0..n {
        if left == 0 {
            return s;
        }
        let r = load_row(a, i);
        let len = r.len;
        if !contains_hashed(hashes, held, r.off) {
            let k = s.n;
            s.off[k] = r.off;
            s.bits[k] = bits;
            s.held[k] = bits;
            s.start[k] = start;
            s.len[k] = len;
            s.n = k + 1;
            left -= 1;
        }
        start += len;
    }
    s
}

// The slots with the new pieces, how many rows there are then, and how many waiting bytes went.
#[derive(Clone, Copy)]
pub struct Added {
    pub slots: Slots,
    pub rows: usize,
    pub bytes: usize,
}

// New pieces behind n rows, at most `room`, of at most max bytes each, of the w waiting bytes that lie from `at` on.
pub fn new_pieces(
    a: &mut [u8],
    n: usize,
    room: usize,
    max: u32,
    next: u32,
    at: u32,
    w: u32,
    bits: u32,
    given: Slots,
) -> Added
    requires { (n + room ≤ max_pieces) × (area_bytes ≤ length a.old) × (given.n + room ≤ max_slots) × (1 ≤ max) × (next + w ≤ max_taken) × (at + w ≤ stream_bytes) }
    ensures { (result, a.new) ≡ added_pieces a.old n room max next at w bits given }
{
    let mut s = given;
    let mut done: u32 = 0;
    for i in n..n + room {
        if done == w {
            return Added {
                slots: s,
                rows: i,
                bytes: done as usize,
            };
        }
        let len = max.min(w - done);
        let off = next + done;
        store_row(a, i, Row { off, len });
        let k = s.n;
        s.off[k] = off;
        s.bits[k] = bits;
        s.held[k] = bits;
        s.start[k] = at + done;
        s.len[k] = len;
        s.n = k + 1;
        done += len;
    }
    Added {
        slots: s,
        rows: n + room,
        bytes: done as usize,
    }
}
