// data_burst of sender.rs, out of a sound record: what it answers, and what it leaves of record, work area and output.
ghost use Rattle.std.specs.Prelude.{◌≡◌, true, ◌*◌, ◌≤◌, length};
ghost use Rattle.config.specs.Ranged.{Ranged};
ghost use Rattle.config.specs.Ranges.{in_order};
ghost use Rattle.outgoing.specs.Outgoing.{burst_of};
ghost use Rattle.limits.specs.Limits.{max_slots};
ghost use Rattle.soundness.specs.SoundnessCode.{SoundRecord};

use config::Profile;
use outgoing::Outgoing;
use record::Sender;

// The answer of a burst and the next record.
#[derive(Clone, Copy)]
pub struct Burst {
    pub outgoing: Outgoing,
    pub next: Sender,
}

// A burst of the record, whose frames go to `out`. The output has room for 64 long frames.
pub fn data_burst(p: Profile, s: Sender, a: &mut [u8], out: &mut [u8]) -> Burst
    requires fact_1 { Ranged p }
    requires fact_2 { (in_order p ≡ true) × SoundRecord p s a.old × (max_slots * p.long_bytes ≤ length out.old) }
    ensures { ((result.outgoing, result.next), (a.new, out.new)) ≡ burst_of p s a.old out.old }
{
    let g = s.gear;
    let k = s.link;
    let q = p.codes;
    let l = g.level;
    let c = outgoing::choosing::choose(p, g, k);
    let size = p.frame_bytes(l) as usize;
    let payload = frame::max_payload(size) as u32;
    let number = header::next_burst_id(k.burst_id, k.heard, k.peer_heard);
    let t = frame::crc::table();
    let b = crate::sending::go(&t, q, c, payload, p.merge_pieces, number, size, s, a, out);
    let slots = b.slots;
    let pl = b.plan;
    let frames = outgoing::spans::frames_out(q, slots);
    let o = outgoing::answer(p, g, k, pl, number, frames);
    let bits = outgoing::burst_bits(pl, c.slot, slots.n);
    let ms = outgoing::airtime(p, l, o.cue, s.counts.airtime_ms, slots.n, bits);
    let mut next = b.next;
    next.counts.airtime_ms = ms;
    Burst { outgoing: o, next }
}
