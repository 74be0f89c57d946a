// The frames of a burst: each slot's offset, payload length and span of coded bits.
ghost use Rattle.std.specs.Prelude.{◌≡◌, ℕ, ◌<◌, ◌≤◌, get_or};
ghost use Rattle.frames.specs.Slots.{slots_from};
ghost use Rattle.limits.specs.Limits.{max_slots};
ghost use Rattle.outgoing.specs.OutgoingCode.{slot_frames};

use crate::Frames;
use frames::slots::Slots;
use harq::Harq;
use limits::MAX_SLOTS;

// The frames of a burst's slots; a span starts where the bits of before end, in the mother code.
pub fn frames_out(q: Harq, s: Slots) -> Frames
    requires { (1 ≤ q.mother) × (s.n ≤ max_slots) × ((i : ℕ) → i < s.n → get_or s.bits i 0 ≤ get_or s.held i 0) }
    ensures { result ≡ slot_frames q (slots_from s 0 s.n) }
{
    let mut off: [u32; MAX_SLOTS] = [0; MAX_SLOTS];
    let mut len: [u32; MAX_SLOTS] = [0; MAX_SLOTS];
    let mut start: [u32; MAX_SLOTS] = [0; MAX_SLOTS];
    let mut bits: [u32; MAX_SLOTS] = [0; MAX_SLOTS];
    let n = s.n;
    for i in 0..n {
        let held = s.held[i];
        let more = s.bits[i];
        let before = held - more;
        off[i] = s.off[i];
        len[i] = s.len[i];
        start[i] = q.start(before);
        bits[i] = more;
    }
    Frames {
        off,
        len,
        start,
        bits,
        n,
    }
}
