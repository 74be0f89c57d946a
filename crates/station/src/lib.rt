// The thin layer: a station program holds one record, and each call of the sender changes it. The calls are exported, for C to link: a
// slice goes as a pointer and a length. No call requires anything; the profile is read where it lies. The link log, the levels within
// reach and a profile on a card need no record; the receiving end, a box that listens, has one of its own.
#![tactic(auto)]

ghost use Rattle.std.specs.Prelude.{◌≡◌, []};
ghost use Rattle.queuing.specs.Station.{fresh_station};
ghost use Rattle.sender.specs.Calls.{queue_of, receive_of, frames_of, find_of, piece_of, burst_call};
ghost use Rattle.refusals.specs.declared.Reply.TheVariants as R;
ghost use Rattle.sender.specs.Numbered.{answer_number, after_reply, after_queue, burst_number, find_number};
ghost use Rattle.adif.specs.Adif.{log_of};
ghost use Rattle.reachable.specs.Reachable.{listing_under};
ghost use Rattle.card.specs.Card.{write_of, read_of};
ghost use Rattle.receiver.specs.Receiving.{fresh_receiver, reception_of};
ghost use Rattle.station.specs.Exported.{left, left_burst};
ghost use Rattle.station.specs.ExportedCode.{kept};

use adif::Logged;
use card::{CardAnswer, Found};
use config::Profile;
use queuing::{Station, Waiting};
use reachable::Listing;
use receiver::{Received, Receiver};
use reception::Reception;
use record::Sender;
use refusals::Refusal;
use replies::{Ack, ConnAck, Heard, LongAck, Turn};
use report::ChanClass;
use sender::{Burst, Message, Place};

// Stores the next record, unless a number refuses the call: then nothing is written.
fn keep(t: &mut Station, refusal: u8, next: Station)
    ensures { t.new ≡ kept t.old refusal next }
{
    if refusal == 0 {
        *t = next;
    }
}

// The same of a reply: the messages stay. Answers the number.
fn keep_sender(t: &mut Station, answer: Result<Sender, Refusal>) -> u8
    ensures { left result t.new ≡ after_reply t.old answer }
{
    match answer {
        Ok(sender) => {
            t.sender = sender;
            0
        }
        Err(refusal) => u8::from(refusal),
    }
}

// The same of a queuing: the rest of the record stays.
fn keep_queue(t: &mut Station, taken: Result<Waiting, Refusal>) -> u8
    ensures { left result t.new ≡ after_queue t.old taken }
{
    match taken {
        Ok(w) => {
            t.messages = w.messages;
            t.sender.counts.waiting = w.waiting;
            0
        }
        Err(refused) => u8::from(refused),
    }
}

// Stores the profile that was read, unless a number refuses its file: then nothing is written. Answers the rest.
fn keep_profile(p: &mut Profile, read: Found) -> CardAnswer
    ensures { ((result.refusal ≡ read.refusal) × (result.stretched ≡ read.stretched))
        × (p.new ≡ kept p.old read.refusal read.profile) }
{
    if read.refusal == 0 {
        *p = read.profile;
    }
    CardAnswer {
        refusal: read.refusal,
        stretched: read.stretched,
    }
}

// The record of a new station.
#[unsafe(no_mangle)]
pub extern "C" fn vanitycrow_fresh(t: &mut Station)
    ensures { t.new ≡ fresh_station }
{
    let f = sender::fresh();
    *t = f;
}

// Bytes to send, as one message.
#[unsafe(no_mangle)]
pub extern "C" fn vanitycrow_queue(
    p: &Profile,
    t: &mut Station,
    a: &mut [u8],
    m: Message,
    bytes: &[u8],
) -> u8
    ensures { (left result t.new, a.new) ≡ answer_number (queue_of p.now t.old a.old m.class m.label bytes.now) }
{
    let q = sender::queue(*p, *t, a, m, bytes);
    keep_queue(t, q)
}

// A connect answer.
#[unsafe(no_mangle)]
pub extern "C" fn vanitycrow_connect(
    p: &Profile,
    t: &mut Station,
    a: &mut [u8],
    h: Heard,
    r: ConnAck,
) -> u8
    ensures { (left result t.new, a.new)
        ≡ answer_number (receive_of p.now t.old a.old h (R.ConnAck r) []) }
{
    let q = sender::connect(*p, *t, a, h, r);
    keep_sender(t, q)
}

// A short ack.
#[unsafe(no_mangle)]
pub extern "C" fn vanitycrow_short_ack(
    p: &Profile,
    t: &mut Station,
    a: &mut [u8],
    h: Heard,
    r: Ack,
) -> u8
    ensures { (left result t.new, a.new)
        ≡ answer_number (receive_of p.now t.old a.old h (R.Ack r) []) }
{
    let q = sender::short_ack(*p, *t, a, h, r);
    keep_sender(t, q)
}

// A long ack and its payload.
#[unsafe(no_mangle)]
pub extern "C" fn vanitycrow_long_ack(
    p: &Profile,
    t: &mut Station,
    a: &mut [u8],
    h: Heard,
    r: LongAck,
    payload: &[u8],
) -> u8
    ensures { (left result t.new, a.new)
        ≡ answer_number (receive_of p.now t.old a.old h (R.LongAck r) payload.now) }
{
    let q = sender::long_ack(*p, *t, a, h, r, payload);
    keep_sender(t, q)
}

// A turn.
#[unsafe(no_mangle)]
pub extern "C" fn vanitycrow_turn(
    p: &Profile,
    t: &mut Station,
    a: &mut [u8],
    h: Heard,
    r: Turn,
) -> u8
    ensures { (left result t.new, a.new)
        ≡ answer_number (receive_of p.now t.old a.old h (R.Turn r) []) }
{
    let q = sender::turn(*p, *t, a, h, r);
    keep_sender(t, q)
}

// All decoded frames of one reception, and their payloads back to back.
#[unsafe(no_mangle)]
pub extern "C" fn vanitycrow_frames(
    p: &Profile,
    t: &mut Station,
    a: &mut [u8],
    h: Heard,
    r: Reception,
    payloads: &[u8],
) -> u8
    ensures { (left result t.new, a.new)
        ≡ answer_number (frames_of p.now t.old a.old h r payloads.now) }
{
    let q = sender::frames_rx(*p, *t, a, h, r, payloads);
    keep_sender(t, q)
}

// The next burst. Its frames stand in the output back to back.
#[unsafe(no_mangle)]
pub extern "C" fn vanitycrow_data_burst(
    p: &Profile,
    t: &mut Station,
    a: &mut [u8],
    out: &mut [u8],
) -> Burst
    ensures { (left_burst result t.new, (a.new, out.new))
        ≡ burst_number (burst_call p.now t.old a.old out.old) }
{
    let q = sender::data_burst(*p, *t, a, out);
    let l = sender::after_burst(q);
    keep(t, l.refusal, l.next);
    sender::made(q)
}

// Where the bytes of the piece at `off` lie in the work area.
#[unsafe(no_mangle)]
pub extern "C" fn vanitycrow_find(p: &Profile, t: &Station, a: &[u8], off: u32) -> Place
    ensures { result ≡ find_number (find_of p.now t.now a.now off) }
{
    sender::find(*p, *t, a, off)
}

// The bytes of the piece at `off`: the part of the work area that holds them. Empty where refused or not found. No reference is handed to C.
pub fn piece<'a>(p: &Profile, t: &Station, a: &'a [u8], off: u32) -> &'a [u8]
    ensures { result.now ≡ piece_of p.now t.now a.now off }
{
    sender::piece(*p, *t, a, off)
}

// A finished link with `call`, from the second `on` to the second `off`, as one ADIF record at the start of the output.
#[unsafe(no_mangle)]
pub extern "C" fn vanitycrow_adif(
    call: &[u8],
    on: u64,
    off: u64,
    acked: u32,
    out: &mut [u8],
) -> Logged
    ensures { (result, out.new) ≡ log_of call.now on off acked out.old }
{
    adif::log_link(call, on, off, acked, out)
}

// The levels that a sender under this profile can choose for a report from `low` to `high` over a channel of this class.
#[unsafe(no_mangle)]
pub extern "C" fn vanitycrow_levels(p: &Profile, class: ChanClass, low: u8, high: u8) -> Listing
    ensures { result ≡ listing_under p.now class low high }
{
    reachable::levels_under(*p, class, low, high)
}

// The profile as a file of version 1 at the start of the output.
#[unsafe(no_mangle)]
pub extern "C" fn vanitycrow_write_profile(p: &Profile, out: &mut [u8]) -> u8
    ensures { (result, out.new) ≡ write_of p.now out.old }
{
    card::write(*p, out)
}

// The profile of a file, which takes the place of *p; a refused file leaves *p as it is.
#[unsafe(no_mangle)]
pub extern "C" fn vanitycrow_read_profile(file: &[u8], p: &mut Profile) -> CardAnswer
    ensures { (result.refusal, p.new, result.stretched) ≡ read_of file.now p.old }
{
    let q = card::read(file, *p);
    keep_profile(p, q)
}

// The record of a new box; its window is all zeros.
#[unsafe(no_mangle)]
pub extern "C" fn vanitycrow_fresh_receiver(r: &mut Receiver)
    ensures { r.new ≡ fresh_receiver }
{
    let f = receiver::fresh();
    *r = f;
}

// A burst's number and its decoded frames, which stand in `bytes` one after the other, of the lengths `sizes` and with the slot numbers `slots`;
// `db` is the dB byte to answer. The stream goes on into the output, and the answer is a long ack's payload.
#[unsafe(no_mangle)]
pub extern "C" fn vanitycrow_receive(
    r: &mut Receiver,
    window: &mut [u16],
    number: u8,
    db: u8,
    bytes: &[u8],
    sizes: &[u16],
    slots: &[u8],
    out: &mut [u8],
) -> Received
    ensures { (record { answer = result; next = r.new }, (window.new, out.new))
        ≡ reception_of r.old window.old number bytes.now sizes.now slots.now db out.old }
{
    let q = receiver::receiver_rx(*r, window, number, bytes, sizes, slots, db, out);
    let next = q.next;
    *r = next;
    q.answer
}
