// The lines of a call list that ask the sender, a queuing, a reply or a reception (docs/CALLS.md, Calls): each is read into what it asks,
// and the call is made over a record by value. The module `answers` has these with their answers, a burst and the question for a piece.
#![tactic(auto)]

ghost use Rattle.std.specs.Prelude.{◌≡◌};
ghost use Rattle.list_calls.specs.Asked.{if_right, connect_asks, short_asks, turn_asks, long_asks};
ghost use Rattle.list_calls.specs.Asked.{frames_asks, queue_asks, ask_line, requested, made};
ghost use Rattle.sender.specs.Numbered.{answer_number};

use call_lines::names::{Call, Named};
use call_lines::{connect_words, frames_words, long_words, queue_words, short_words, turn_words};
use config::Profile;
use queuing::Station;
use reception::Reception;
use refusals::Reply;
use replies::Heard;
use sender::{Left, Message, answered, queued};
use words::Read;

pub mod answers;

// What a line asks of the sender: a reply is taken in, a reception, or a message is queued.
#[derive(Clone, Copy)]
pub enum Ask {
    Reply(Heard, Reply),
    Reception(Heard, Reception),
    Message(Message),
}

// A line that asks the sender, read: what it asks, and how many bytes go with it.
#[derive(Clone, Copy)]
pub struct AskLine {
    pub ask: Ask,
    pub len: usize,
}

// A line that asks so, if it is right.
fn if_right(ok: bool, ask: Ask, len: usize) -> Option<AskLine>
    ensures { result ≡ if_right ok ask len }
{
    if ok { Some(AskLine { ask, len }) } else { None }
}

#[tactic(auto, unfolding(crate::specs::Asked::connect_asks))]
fn connect(line: &[u8], r: Read) -> Option<AskLine>
    ensures { result ≡ connect_asks line.now r }
{
    let q = connect_words(line, r);
    if_right(q.ok, Ask::Reply(q.heard, Reply::ConnAck(q.reply)), 0)
}

#[tactic(auto, unfolding(crate::specs::Asked::short_asks))]
fn short(line: &[u8], r: Read) -> Option<AskLine>
    ensures { result ≡ short_asks line.now r }
{
    let q = short_words(line, r);
    if_right(q.ok, Ask::Reply(q.heard, Reply::Ack(q.reply)), 0)
}

#[tactic(auto, unfolding(crate::specs::Asked::turn_asks))]
fn turn(line: &[u8], r: Read) -> Option<AskLine>
    ensures { result ≡ turn_asks line.now r }
{
    let q = turn_words(line, r);
    if_right(q.ok, Ask::Reply(q.heard, Reply::Turn(q.reply)), 0)
}

// The payload is put at the start of `bytes`, and so are the payloads of a reception and the bytes of a message.
#[tactic(auto, unfolding(crate::specs::Asked::long_asks))]
fn long(line: &[u8], r: Read, bytes: &mut [u8]) -> Option<AskLine>
    ensures { (result, bytes.new) ≡ long_asks bytes.old line.now r }
{
    let q = long_words(line, r, bytes);
    if_right(
        q.ok,
        Ask::Reply(q.heard, Reply::LongAck(q.reply)),
        q.payload,
    )
}

#[tactic(auto, unfolding(crate::specs::Asked::frames_asks))]
fn frames(line: &[u8], r: Read, bytes: &mut [u8]) -> Option<AskLine>
    ensures { (result, bytes.new) ≡ frames_asks bytes.old line.now r }
{
    let q = frames_words(line, r, bytes);
    if_right(q.ok, Ask::Reception(q.heard, q.reception), q.used)
}

#[tactic(auto, unfolding(crate::specs::Asked::queue_asks))]
fn queue(line: &[u8], r: Read, bytes: &mut [u8]) -> Option<AskLine>
    ensures { (result, bytes.new) ≡ queue_asks bytes.old line.now r }
{
    let q = queue_words(line, r, bytes);
    let message = Message {
        class: q.class,
        label: q.label,
    };
    if_right(q.ok, Ask::Message(message), q.len)
}

// By the call. A line of another call breaks the rules.
#[tactic(auto, unfolding(crate::specs::Asked::ask_line))]
pub(crate) fn ask_line(n: Named, line: &[u8], bytes: &mut [u8]) -> Option<AskLine>
    ensures { (result, bytes.new) ≡ ask_line bytes.old line.now n }
{
    match n.call {
        Some(Call::Short) => short(line, n.read),
        Some(Call::Long) => long(line, n.read, bytes),
        Some(Call::Turn) => turn(line, n.read),
        Some(Call::Connect) => connect(line, n.read),
        Some(Call::Frames) => frames(line, n.read, bytes),
        Some(Call::Queue) => queue(line, n.read, bytes),
        _ => None,
    }
}

// The call that is asked for, with its bytes.
fn requested(ask: Ask, p: Profile, s: Station, area: &mut [u8], bytes: &[u8]) -> Left
    ensures { (result, area.new) ≡ answer_number (requested p s area.old ask bytes.now) }
{
    match ask {
        Ask::Message(m) => queued(s, sender::queue(p, s, area, m, bytes)),
        Ask::Reception(h, q) => answered(s, sender::frames_rx(p, s, area, h, q, bytes)),
        Ask::Reply(h, q) => answered(s, sender::sender_rx(p, s, area, h, q, bytes)),
    }
}

// The call that the line q asks for; none where the line breaks the rules.
#[tactic(auto, unfolding(crate::specs::Asked::made))]
pub(crate) fn made(
    q: Option<AskLine>,
    p: Profile,
    s: Station,
    area: &mut [u8],
    bytes: &[u8],
) -> Left
    ensures { (result, area.new) ≡ made p s area.old q bytes.now }
{
    match q {
        Some(q) => requested(q.ask, p, s, area, bytes),
        None => Left {
            refusal: 0,
            next: s,
        },
    }
}
