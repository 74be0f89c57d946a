// What a refusal is: the papers' numbers, and the values that a reply may carry. No function requires anything.
#![tactic(auto)]

ghost use Rattle.std.specs.Prelude.{◌≡◌};
ghost use Rattle.refusals.specs.Refusals.{refusal_number, refusal_of, number_of, kind_of, time_ok, report_ok, heard_ok, reply_ok};

use area::room::NoRoom;
use replies::{Ack, ConnAck, Heard, LongAck, Turn};

// Why a call is refused, by the papers' numbers: document 01's 1 to 10, and 11, 12 and 15 of document 02.
#[derive(Clone, Copy, PartialEq, Eq)]
pub enum Refusal {
    ProfileOutOfRange = 1,
    ShortOverLong = 2,
    Unsound = 3,
    OutOfTurn = 4,
    BadTime = 5,
    BadValue = 6,
    ShortPayload = 7,
    QueueFull = 8,
    AllTaken = 9,
    ShortOutput = 10,
    BadClass = 11,
    TooManyMessages = 12,
    TooManyFrames = 15,
}

// Decoded frames of one reception at most.
pub const MAX_RECEIVED: usize = 16;

// A reply. A long ack's payload travels beside it.
#[derive(Clone, Copy)]
pub enum Reply {
    ConnAck(ConnAck),
    Ack(Ack),
    LongAck(LongAck),
    Turn(Turn),
}

impl From<Refusal> for u8 {
    ghost from_gives = { λ r n. n ≡ refusal_number r };

    fn from(refusal: Refusal) -> u8 {
        refusal as u8
    }
}

impl From<NoRoom> for Refusal {
    ghost from_gives = { λ why r. r ≡ refusal_of why };

    fn from(why: NoRoom) -> Refusal {
        match why {
            NoRoom::QueueFull => Refusal::QueueFull,
            NoRoom::AllTaken => Refusal::AllTaken,
        }
    }
}

// The papers' number of what becomes of a call: 0 where it is accepted.
pub fn number(v: Result<(), Refusal>) -> u8
    ensures { result ≡ number_of v }
{
    match v {
        Ok(()) => 0,
        Err(refusal) => u8::from(refusal),
    }
}

// Refusal 5, of a call at `t` after one at `last`.
pub fn time_ok(last: f64, t: f64) -> bool
    ensures { result ≡ time_ok last t }
{
    ((0.0 <= t) & (t <= 1000000000.0)) & (last <= t)
}

// A dB value of a reply.
fn report_ok(x: f32) -> bool
    ensures { result ≡ report_ok x }
{
    (-100.0 <= x) & (x <= 300.0)
}

pub fn heard_ok(h: Heard) -> bool
    ensures { result ≡ heard_ok h }
{
    (h.wave <= 5) & report_ok(h.snr_db)
}

pub fn reply_ok(r: Reply) -> bool
    ensures { result ≡ reply_ok r }
{
    match r {
        Reply::ConnAck(c) => report_ok(c.snr_db) & (c.slot <= 2),
        Reply::Ack(c) => (c.burst <= 3)
            & ((c.bitmap <= 63) & (report_ok(c.snr_db) & (c.slot <= 2))),
        Reply::LongAck(_) => true,
        Reply::Turn(c) => !c.report.set | report_ok(c.report.db),
    }
}

// Which reply it is.
pub fn kind(r: Reply) -> u8
    ensures { result ≡ kind_of r }
{
    match r {
        Reply::ConnAck(_) => 0,
        Reply::Ack(_) => 1,
        Reply::LongAck(_) => 2,
        Reply::Turn(_) => 3,
    }
}
