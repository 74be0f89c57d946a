// All frames of one reception, once accepted: the loop at the end of sender_rx (sender.rs; document 02, Change 7).
#![tactic(auto)]

ghost use Rattle.std.specs.Prelude.{◌≡◌, ◌≤◌};
ghost use Rattle.report.specs.Ack.{ack_of};
ghost use Rattle.config.specs.Ranged.{Ranged};
ghost use Rattle.refusals.specs.Refusals.{max_received};
ghost use Rattle.replies.specs.RepliesCode.{ReplyReady};
ghost use Rattle.reception.specs.Reception.{decoded_in, flags_of, frames_heard};
ghost use Rattle.reception.specs.ReceptionCode.{read_noted};

use byte_copy::least;
use config::Profile;
use receive::accepted::hear_payload;
use receive::acks::note;
use record::{Link, Sender};
use refusals::MAX_RECEIVED;
use replies::{Heard, LongAck};
use report::ack::AckInfo;

// The decoded frames of one reception: n of them, each with its kind and flags as frame.rs numbers them and its payload's length. The
// payloads travel beside it, back to back. kept: arrays side by side with a count: C interface.
#[repr(C)]
#[derive(Clone, Copy)]
pub struct Reception {
    pub n: usize,
    pub kind: [u8; MAX_RECEIVED],
    pub flags: [u8; MAX_RECEIVED],
    pub len: [u32; MAX_RECEIVED],
}

fn flags_of(f: u8) -> LongAck
    ensures { result ≡ flags_of f }
{
    let want_turn = f % 2 == 1;
    let want_disc = f / 2 % 2 == 1;
    let stored = f / 4 % 2 == 1;
    LongAck {
        want_turn,
        want_disc,
        stored,
    }
}

// A long ack that is not awaited.
fn unasked(k: Link, time: f64, r: LongAck, payload: &[u8]) -> Link
    ensures { result ≡ read_noted k time r (ack_of payload.now) }
{
    match AckInfo::from_bytes(payload) {
        None => k,
        Some(i) => note(k, time, r.want_turn, r.want_disc, i.burst),
    }
}

// The frames in order; those that are no acks, or too short, are passed over. The first that is read may settle the outstanding burst;
// after it no ack is awaited.
pub fn hear_frames(
    p: Profile,
    s: Sender,
    a: &mut [u8],
    h: Heard,
    r: Reception,
    payloads: &[u8],
) -> Sender
    requires fact_1 { Ranged p }
    requires fact_2 { ReplyReady p s a.old × (h.wave ≤ 5) × (r.n ≤ max_received) }
    ensures { (result, a.new) ≡ frames_heard p h (decoded_in r payloads.now) (s, a.old) }
{
    let n = r.n;
    let mut q = s;
    let mut at = 0;
    for i in 0..n {
        let l = r.len[i] as usize;
        let k = least(l, &payloads[at..]);
        let f = flags_of(r.flags[i]);
        if (r.kind[i] == 4) & (13 <= k) {
            if q.link.awaiting {
                q = hear_payload(p, q, a, h, f, &payloads[at..at + k]);
            } else {
                q.link = unasked(q.link, h.time, f, &payloads[at..at + k]);
            }
        }
        at = at + k;
    }
    q
}
