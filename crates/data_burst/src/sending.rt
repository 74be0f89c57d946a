// data_burst of sender.rs: what it leaves of the record's lists, the work area and the output.
ghost use Rattle.std.specs.Prelude.{false, ◌≡◌, ℕ, ◌+◌, ◌≤◌, ◌<◌, length, take};
ghost use Rattle.frame.specs.Table.{table_of};
ghost use Rattle.area.specs.Layout.{area_bytes, stream_bytes};
ghost use Rattle.area.specs.Table.{row_at, rows_from};
ghost use Rattle.area.specs.Removal.{Hashed};
ghost use Rattle.area.specs.Recut.{split_rows};
ghost use Rattle.data_burst.specs.Rows.{kept_held, cut_table, slots_in, Pickable, picked, next_of, Ready, burst_rows};
ghost use Rattle.limits.specs.Limits.{max_pieces, max_taken};

use area::merging::merge_table;
use area::removal::{HASHES, hash};
use area::splitting::split_table;
use frames::put_frames;
use frames::slots::{Added, Slots, increments, new_pieces, old_pieces};
use harq::Harq;
use limits::MAX_SLOTS;
use plan::{Choice, Planned, plan};
use record::{AtPeer, Counts, LastBurst, Sender};

// The burst's frames and its plan, and the next record.
#[derive(Clone, Copy)]
pub struct Sending {
    pub slots: Slots,
    pub plan: Planned,
    pub next: Sender,
}

// at_peer and at_peer_rest: with no parity they are cleared.
fn keep(h: AtPeer, parity: usize) -> AtPeer
    requires { parity ≤ h.n }
    ensures { result ≡ kept_held h parity }
{
    let mut k = h;
    if parity == 0 {
        k.n = 0;
        k.rest = 0;
        return k;
    }
    k.rest = h.n - parity;
    k
}

// Pieces are cut at a short level, and merged at a long one.
fn cut(
    a: &mut [u8],
    n: usize,
    long: bool,
    merging: bool,
    payload: u32,
    hashes: &[u8],
    held: &[u32],
) -> usize
    requires { (n ≤ max_pieces) × (area_bytes ≤ length a.old) × (1 ≤ payload) × (long ≡ false → length (split_rows payload (rows_from a.old 0 n)) ≤ max_pieces) × ((i : ℕ) → i < n → (row_at a.old i).off + (row_at a.old i).len ≤ max_taken) × Hashed hashes.now held.now }
    ensures { (result, a.new) ≡ cut_table long merging payload held.now n a.old }
{
    if !long {
        return split_table(a, n, payload);
    }
    if merging {
        return merge_table(a, n, payload, hashes, held);
    }
    n
}

// No slot yet, in the arrays of the burst before.
fn no_slots(b: LastBurst) -> Slots
    ensures { result ≡ slots_in b }
{
    let off = b.off;
    let bits = b.bits;
    let held = b.held;
    Slots {
        off,
        bits,
        held,
        start: [0; MAX_SLOTS],
        len: [0; MAX_SLOTS],
        n: 0,
    }
}

// What goes: increments, then pieces that are not held, then new ones, whose rows are written.
fn pick(
    q: Harq,
    slot: u32,
    payload: u32,
    s: Sender,
    h: AtPeer,
    pl: Planned,
    a: &mut [u8],
    n: usize,
    hashes: &[u8],
) -> Added
    requires { Pickable q slot payload s h pl n a.old × Hashed hashes.now (take h.n h.off) }
    ensures { (result, a.new) ≡ picked q slot payload s h pl n a.old }
{
    let c = s.counts;
    let b = s.last_burst;
    let off = h.off;
    let bits = h.bits;
    let held = h.n;
    let k = pl.parity;
    let room = pl.room;
    let none = no_slots(b);
    let s1 = increments(q, slot, a, n, &off[..k], &bits[..k], none);
    let s2 = old_pieces(a, n, hashes, &off[..held], room, slot, s1);
    let left = room - (s2.n - s1.n);
    new_pieces(
        a,
        n,
        left,
        payload,
        c.next_offset,
        c.flying,
        c.waiting,
        slot,
        s2,
    )
}

// The next record.
fn after(s: Sender, h: AtPeer, p: Added, number: u8) -> Sender
    requires { (p.bytes ≤ s.counts.waiting) × (s.counts.next_offset + s.counts.waiting ≤ max_taken) × (s.counts.flying + s.counts.waiting ≤ stream_bytes) }
    ensures { result ≡ next_of s h p number }
{
    let c = s.counts;
    let x = p.slots;
    let bytes = p.bytes as u32;
    let counts = Counts {
        next_offset: c.next_offset + bytes,
        waiting: c.waiting - bytes,
        flying: c.flying + bytes,
        pieces: p.rows,
        bytes_acked: c.bytes_acked,
        airtime_ms: c.airtime_ms,
    };
    let off = x.off;
    let bits = x.bits;
    let held = x.held;
    let last = LastBurst {
        off,
        bits,
        held,
        n: x.n,
    };
    let mut r = s;
    r.counts = counts;
    r.at_peer = h;
    r.last_burst = last;
    r.link.awaiting = true;
    r.link.burst_id = number;
    r
}

// A burst's frames, of `size` bytes each. The time on air is left as it is. `t` are crc's tables.
pub fn go(
    t: &[u32; 256],
    q: Harq,
    c: Choice,
    payload: u32,
    merging: bool,
    number: u8,
    size: usize,
    s: Sender,
    a: &mut [u8],
    out: &mut [u8],
) -> Sending
    requires { (t.now ≡ table_of) × Ready q c payload merging s a.old size out.old }
    ensures { (result, (a.new, out.new)) ≡ burst_rows q c payload merging s a.old number size out.old }
{
    let pieces = s.counts.pieces;
    let h0 = s.at_peer;
    let bits = h0.bits;
    let n0 = h0.n;
    let pl = plan(q, c, &bits[..n0]);
    let h = keep(h0, pl.parity);
    let off = h.off;
    let n = h.n;
    let mut hashes = [0u8; HASHES];
    hash(&mut hashes, &off[..n]);
    let rows = cut(a, pieces, c.long, merging, payload, &hashes, &off[..n]);
    let p = pick(q, c.slot, payload, s, h, pl, a, rows, &hashes);
    let slots = p.slots;
    put_frames(t, out, a, slots, size);
    let next = after(s, h, p, number);
    Sending {
        slots,
        plan: pl,
        next,
    }
}
