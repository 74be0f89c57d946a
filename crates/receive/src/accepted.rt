// A reply that is accepted, by its kind (sender_rx of sender.rs).
ghost use Rattle.std.specs.Prelude.{◌≡◌, ◌≤◌};
ghost use Rattle.report.specs.Ack.{ack_of};
ghost use Rattle.config.specs.Ranged.{Ranged};
ghost use Rattle.receive.specs.Accepted.{long_read, accepted_reply};
ghost use Rattle.replies.specs.RepliesCode.{ReplyReady};

use crate::acks::{hear_long, hear_short};
use crate::turns::{hear_connect, hear_turn};
use config::Profile;
use record::Sender;
use refusals::Reply;
use replies::{Heard, LongAck};
use report::ack::AckInfo;

// A long ack, by what AckInfo::from_bytes reads of its payload.
pub fn hear_payload(
    p: Profile,
    s: Sender,
    a: &mut [u8],
    h: Heard,
    r: LongAck,
    payload: &[u8],
) -> Sender
    requires fact_1 { Ranged p }
    requires fact_2 { ReplyReady p s a.old × (h.wave ≤ 5) }
    ensures { (result, a.new) ≡ long_read p h r (ack_of payload.now) s a.old }
{
    match AckInfo::from_bytes(payload) {
        None => s,
        Some(i) => hear_long(p, s, a, h, r, i),
    }
}

// A reply that is accepted.
pub fn answer(p: Profile, s: Sender, a: &mut [u8], h: Heard, r: Reply, payload: &[u8]) -> Sender
    requires fact_1 { Ranged p }
    requires fact_2 { ReplyReady p s a.old × (h.wave ≤ 5) }
    ensures { (result, a.new) ≡ accepted_reply p h r payload.now s a.old }
{
    match r {
        Reply::ConnAck(c) => hear_connect(p, s, h, c),
        Reply::Ack(c) => hear_short(p, s, a, h, c),
        Reply::LongAck(c) => hear_payload(p, s, a, h, c, payload),
        Reply::Turn(c) => hear_turn(p, s, h, c),
    }
}
