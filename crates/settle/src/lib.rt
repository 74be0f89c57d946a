// settle_burst of sender.rs: what an ack leaves of the outstanding burst; and what it says of the burst to the gear.
#![tactic(auto)]

ghost use Rattle.std.specs.Prelude.{◌≡◌, ◌∷◌, [], ◌+◌, ◌≤◌, ◌<◌, length, drop};
ghost use Rattle.pieces.specs.Lists.{held_of};
ghost use Rattle.settle.specs.Settle.{acked_in, offsets_of, missed_in, with_more_held, new_held, Settling, settled};
ghost use Rattle.limits.specs.Limits.{max_slots};

use area::removal::{HASHES, hash, remove_pieces};
use limits::MAX_SLOTS;
use record::{AtPeer, Counts, LastBurst, Sender};

pub mod outcome;

// A list of offsets. kept: an array with a count, since memory is fixed: no heap.
#[derive(Clone, Copy)]
struct Offsets {
    off: [u32; MAX_SLOTS],
    n: usize,
}

// The offsets whose bit is set.
fn acked(offs: &[u32], bitmap: u64) -> Offsets
    requires { length offs.now ≤ max_slots }
    ensures { result ≡ offsets_of (acked_in bitmap offs.now) }
{
    let mut off = [0u32; MAX_SLOTS];
    let mut n = 0;
    let mut b = bitmap;
    for &o in offs {
        if b % 2 == 1 {
            off[n] = o;
            n += 1;
        }
        b = b / 2;
    }
    Offsets { off, n }
}

// at_peer.push((off, bits))
fn push(mut h: AtPeer, off: u32, bits: u32) -> AtPeer
    requires { h.n < max_slots }
    ensures { result ≡ with_more_held h (held_of (off ∷ []) (bits ∷ [])) }
{
    let n = h.n;
    h.off[n] = off;
    h.bits[n] = bits;
    h.n = n + 1;
    h
}

// The frames that are not acknowledged, where the peer can hold more of them.
fn missed(offs: &[u32], held: &[u32], bitmap: u64, top: u32, given: AtPeer) -> AtPeer
    requires { (given.n + length offs.now ≤ max_slots) × (length held.now ≡ length offs.now) }
    ensures { result ≡ with_more_held given (missed_in bitmap top offs.now held.now) }
{
    let mut h = given;
    let mut b = bitmap;
    for (i, &off) in offs.iter().enumerate() {
        let x = held[i];
        if !(b % 2 == 1) & (x < top) {
            h = push(h, off, x);
        }
        b = b / 2;
    }
    h
}

// The unsent rest: what lies from `from` on.
fn rest(offs: &[u32], bits: &[u32], from: usize, given: AtPeer) -> AtPeer
    requires { (given.n + length offs.now ≤ max_slots) × (length bits.now ≡ length offs.now) }
    ensures { result ≡ with_more_held given (drop from (held_of offs.now bits.now)) }
{
    let mut h = given;
    for i in from..offs.len() {
        h = push(h, offs[i], bits[i]);
    }
    h
}

// at_peer after the ack.
fn new_held(h: AtPeer, s: LastBurst, bitmap: u64, top: u32, keep: bool) -> AtPeer
    requires { (h.n ≤ max_slots) × (h.rest ≤ h.n) × (s.n + h.rest ≤ max_slots) }
    ensures { result ≡ new_held bitmap top keep h s }
{
    let mut none = h;
    none.n = 0;
    none.rest = 0;
    if !keep {
        return none;
    }
    let n = h.n;
    let m = s.n;
    let k = h.n - h.rest;
    let off = h.off;
    let had = h.bits;
    let offs = s.off;
    let held = s.held;
    let kept = rest(&off[..n], &had[..n], k, none);
    missed(&offs[..m], &held[..m], bitmap, top, kept)
}

// The outstanding burst is settled: top is H_MAX, and keep says that the peer stores what it missed.
pub fn settle_burst(s: Sender, a: &mut [u8], bitmap: u64, top: u32, keep: bool) -> Sender
    requires { Settling s a.old }
    ensures { (result, a.new) ≡ settled bitmap top keep s a.old }
{
    let c = s.counts;
    let h = s.at_peer;
    let b = s.last_burst;
    let m = b.n;
    let offs = b.off;
    let g = acked(&offs[..m], bitmap);
    let gone = g.off;
    let n = g.n;
    let mut hashes = [0u8; HASHES];
    hash(&mut hashes, &gone[..n]);
    let rows = c.pieces;
    let used = c.flying as usize + c.waiting as usize;
    let left = remove_pieces(a, rows, used, &hashes, &gone[..n]);
    let held = new_held(h, b, bitmap, top, keep);
    let bytes = left.bytes as u32;
    let counts = Counts {
        next_offset: c.next_offset,
        waiting: c.waiting,
        flying: bytes,
        pieces: left.rows,
        bytes_acked: c.bytes_acked + (c.flying - bytes),
        airtime_ms: c.airtime_ms,
    };
    let mut q = s;
    q.counts = counts;
    q.at_peer = held;
    q.last_burst.n = 0;
    q.link.awaiting = false;
    q
}
