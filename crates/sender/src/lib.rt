// The station's calls (sender.rs; the queue of messages: document 02, Changes 1 and 6), by value: what a call leaves, or the papers'
// refusal. No call requires anything.
#![tactic(auto)]

ghost use Rattle.std.specs.Prelude.{◌≡◌, [], true, ◌≤◌, length};
ghost use Rattle.config.specs.Ranged.{Ranged};
ghost use Rattle.replies.specs.RepliesCode.{ReplyReady};
ghost use Rattle.verdicts.specs.Verdicts.{passed};
ghost use Rattle.sender.specs.CallsCode.{verdict_after, judged_reply};
ghost use Rattle.queuing.specs.Station.{fresh_station};
ghost use Rattle.sender.specs.Calls.{queue_of, receive_of, frames_of, find_of, piece_of, no_burst, burst_call};
ghost use Rattle.refusals.specs.declared.Reply.TheVariants as R;
ghost use Rattle.sender.specs.Numbered.{answer_number, after_reply, after_queue, burst_number, find_number};

use config::Profile;
use limits::MAX_SLOTS;
use messages::{Messages, fly};
use outgoing::{Frames, Outgoing};
use queuing::{Station, Waiting, enqueue};
use receive::accepted::answer;
use reception::{Reception, hear_frames};
use record::Sender;
use refusals::{Refusal, Reply, number};
use replies::{Ack, ConnAck, Heard, LongAck, Turn};
use verdicts::{burst_verdict, frames_verdict, queue_verdict, receive_verdict, standing};

// What a queuing says of its message: its class, and its label, 0 for none (document 02, Changes 1 and 6).
#[repr(C)]
#[derive(Clone, Copy)]
pub struct Message {
    pub class: u8,
    pub label: u16,
}

// What a call leaves for a caller that reads numbers: a refusal's number, 0 where the call is accepted, and the next record.
// kept: the number is what the C interface and the lists of calls read.
#[derive(Clone, Copy)]
pub struct Left {
    pub refusal: u8,
    pub next: Station,
}

// A refusal's number, 0 where the burst is made, and the burst. kept: C interface.
#[repr(C)]
#[derive(Clone, Copy)]
pub struct Burst {
    pub refusal: u8,
    pub outgoing: Outgoing,
}

// What a burst leaves. kept: the answer is the struct of the C interface.
#[derive(Clone, Copy)]
pub struct LeftBurst {
    pub burst: Burst,
    pub next: Station,
}

// A refusal's number; whether there is a piece, and where its bytes lie in the work area. kept: C interface.
#[repr(C)]
#[derive(Clone, Copy)]
pub struct Place {
    pub refusal: u8,
    pub here: bool,
    pub start: usize,
    pub len: usize,
}

pub fn fresh() -> Station
    ensures { result ≡ fresh_station }
{
    queuing::fresh()
}

// Bytes to send, as one message of this class and label: the waiting ones with its label that have not begun are withdrawn. The rest of the
// record stays.
pub fn queue(
    p: Profile,
    t: Station,
    a: &mut [u8],
    m: Message,
    bytes: &[u8],
) -> Result<Waiting, Refusal>
    ensures { (after_queue t result, a.new) ≡ answer_number (queue_of p t a.old m.class m.label bytes.now) }
{
    let c = t.sender.counts;
    let v = standing(p, t, a, false);
    queue_verdict(v, c, t.messages, m.class, m.label, bytes.len())?;
    let w = enqueue(t.messages, c.flying, c.waiting, a, m.class, m.label, bytes);
    Ok(w)
}

// The record after a queuing.
pub fn queued(t: Station, q: Result<Waiting, Refusal>) -> Left
    ensures { result ≡ after_queue t q }
{
    match q {
        Ok(w) => {
            let messages = w.messages;
            let mut next = t;
            next.messages = messages;
            next.sender.counts.waiting = w.waiting;
            Left { refusal: 0, next }
        }
        Err(refusal) => Left {
            refusal: u8::from(refusal),
            next: t,
        },
    }
}

// A reply to the sender s, where 1 to 4 gave v. The messages stay.
fn judged(
    p: Profile,
    s: Sender,
    v: Result<(), Refusal>,
    a: &mut [u8],
    h: Heard,
    r: Reply,
    payload: &[u8],
) -> Result<Sender, Refusal>
    requires { passed (verdict_after v s h r (length payload.now)) ≡ true → Ranged p × ReplyReady p s a.old × (h.wave ≤ 5) }
    ensures { (result, a.new) ≡ judged_reply v p s a.old h r payload.now }
{
    receive_verdict(v, s.link.last_time, h, r, payload.len())?;
    let sender = answer(p, s, a, h, r, payload);
    Ok(sender)
}

// The record after a reply.
pub fn answered(t: Station, q: Result<Sender, Refusal>) -> Left
    ensures { result ≡ after_reply t q }
{
    match q {
        Ok(sender) => {
            let messages = t.messages;
            Left {
                refusal: 0,
                next: Station { sender, messages },
            }
        }
        Err(refusal) => Left {
            refusal: u8::from(refusal),
            next: t,
        },
    }
}

pub fn connect(
    p: Profile,
    t: Station,
    a: &mut [u8],
    h: Heard,
    r: ConnAck,
) -> Result<Sender, Refusal>
    ensures { (after_reply t result, a.new) ≡ answer_number (receive_of p t a.old h (R.ConnAck r) []) }
{
    let none: [u8; 1] = [0];
    let v = standing(p, t, a, true);
    judged(p, t.sender, v, a, h, Reply::ConnAck(r), &none[..0])
}

pub fn short_ack(p: Profile, t: Station, a: &mut [u8], h: Heard, r: Ack) -> Result<Sender, Refusal>
    ensures { (after_reply t result, a.new) ≡ answer_number (receive_of p t a.old h (R.Ack r) []) }
{
    let none: [u8; 1] = [0];
    let v = standing(p, t, a, false);
    judged(p, t.sender, v, a, h, Reply::Ack(r), &none[..0])
}

pub fn long_ack(
    p: Profile,
    t: Station,
    a: &mut [u8],
    h: Heard,
    r: LongAck,
    payload: &[u8],
) -> Result<Sender, Refusal>
    ensures { (after_reply t result, a.new) ≡ answer_number (receive_of p t a.old h (R.LongAck r) payload.now) }
{
    let v = standing(p, t, a, false);
    judged(p, t.sender, v, a, h, Reply::LongAck(r), payload)
}

pub fn turn(p: Profile, t: Station, a: &mut [u8], h: Heard, r: Turn) -> Result<Sender, Refusal>
    ensures { (after_reply t result, a.new) ≡ answer_number (receive_of p t a.old h (R.Turn r) []) }
{
    let none: [u8; 1] = [0];
    let v = standing(p, t, a, false);
    judged(p, t.sender, v, a, h, Reply::Turn(r), &none[..0])
}

// A reply, and a long ack's payload. The messages stay.
pub fn sender_rx(
    p: Profile,
    t: Station,
    a: &mut [u8],
    h: Heard,
    r: Reply,
    payload: &[u8],
) -> Result<Sender, Refusal>
    ensures { (after_reply t result, a.new) ≡ answer_number (receive_of p t a.old h r payload.now) }
{
    match r {
        Reply::ConnAck(c) => connect(p, t, a, h, c),
        Reply::Ack(c) => short_ack(p, t, a, h, c),
        Reply::LongAck(c) => long_ack(p, t, a, h, c, payload),
        Reply::Turn(c) => turn(p, t, a, h, c),
    }
}

// All decoded frames of one reception, the payloads back to back. The messages stay.
pub fn frames_rx(
    p: Profile,
    t: Station,
    a: &mut [u8],
    h: Heard,
    r: Reception,
    payloads: &[u8],
) -> Result<Sender, Refusal>
    ensures { (after_reply t result, a.new) ≡ answer_number (frames_of p t a.old h r payloads.now) }
{
    let last = t.sender.link.last_time;
    let v = standing(p, t, a, false);
    frames_verdict(v, last, h, r.n)?;
    let sender = hear_frames(p, t.sender, a, h, r, payloads);
    Ok(sender)
}

// Where the bytes of the piece at `off` lie in the work area.
pub fn find(p: Profile, t: Station, a: &[u8], off: u32) -> Place
    ensures { result ≡ find_number (find_of p t a.now off) }
{
    let v = standing(p, t, a, false);
    let refusal = number(v);
    if v.is_err() {
        return Place {
            refusal,
            here: false,
            start: 0,
            len: 0,
        };
    }
    let f = area::lookup::find(a, t.sender.counts.pieces, off);
    Place {
        refusal,
        here: f.here,
        start: f.start,
        len: f.len,
    }
}

// The bytes of the piece at `off`: the part of the work area that holds them. Empty where refused or not found.
pub fn piece(p: Profile, t: Station, a: &[u8], off: u32) -> &[u8]
    ensures { result.now ≡ piece_of p t a.now off }
{
    let v = standing(p, t, a, false);
    if v.is_err() {
        return &a[..0];
    }
    let n = t.sender.counts.pieces;
    area::lookup::piece(a, n, off)
}

fn no_burst() -> Outgoing
    ensures { result ≡ no_burst }
{
    Outgoing {
        wave: 0,
        code: 0,
        user: 0,
        extra: 0,
        cue: false,
        td_ease: false,
        number: 0,
        frames: Frames {
            off: [0; MAX_SLOTS],
            len: [0; MAX_SLOTS],
            start: [0; MAX_SLOTS],
            bits: [0; MAX_SLOTS],
            n: 0,
        },
    }
}

// data_burst: the next burst. Its frames stand in the output back to back. The bytes that begin to fly leave their messages.
pub fn data_burst(p: Profile, t: Station, a: &mut [u8], out: &mut [u8]) -> LeftBurst
    ensures { (result, (a.new, out.new)) ≡ burst_number (burst_call p t a.old out.old) }
{
    let v = standing(p, t, a, false);
    let v = burst_verdict(v, p.long_bytes, out.len());
    let refusal = number(v);
    if v.is_err() {
        let outgoing = no_burst();
        let burst = Burst { refusal, outgoing };
        return LeftBurst { burst, next: t };
    }
    let b = data_burst::burst::data_burst(p, t.sender, a, out);
    let k = b.next.counts.next_offset - t.sender.counts.next_offset;
    let messages = fly(t.messages, k);
    let outgoing = b.outgoing;
    let sender = b.next;
    let burst = Burst { refusal, outgoing };
    LeftBurst {
        burst,
        next: Station { sender, messages },
    }
}

// What a burst leaves, as of the other calls.
pub fn after_burst(q: LeftBurst) -> Left
    ensures { (result.refusal ≡ q.burst.refusal) × (result.next ≡ q.next) }
{
    let refusal = q.burst.refusal;
    let next = q.next;
    Left { refusal, next }
}

// The burst.
pub fn made(q: LeftBurst) -> Burst
    ensures { result ≡ q.burst }
{
    q.burst
}
