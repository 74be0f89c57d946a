// What the sender turns down (document 01): the verdict of each call.
#![tactic(auto)]

ghost use Rattle.std.specs.Prelude.{◌≡◌, true, ◌&&◌, ◌+◌, ◌≤◌, leb, ltb};
ghost use Rattle.refusals.specs.Refusals.{number_of};
ghost use Rattle.messages.specs.SoundCode.{SoundMessages};
ghost use Rattle.verdicts.specs.Verdicts.{passed, first_of, taken_by, standing as standing_of, reply_verdict, hearing_verdict, frames_standing, room_verdict, output_verdict};
ghost use Rattle.limits.specs.Limits.{max_taken};

use area::room::queue_refusal;
use config::Profile;
use config::ranges::{in_order, in_range};
use limits::{MAX_CLASS, MAX_MESSAGES, MAX_SLOTS, MAX_TAKEN};
use messages::{Messages, messages_ok, superseded};
use queuing::Station;
use record::Counts;
use refusals::{MAX_RECEIVED, Refusal, Reply, heard_ok, reply_ok, time_ok};
use replies::Heard;
use soundness::is_sound;

// Bytes taken, those withdrawn among them, are within their limit.
fn taken_ok(c: Counts, withdrawn: u32) -> bool
    ensures { result ≡ leb (c.next_offset + c.waiting + withdrawn) max_taken }
{
    c.next_offset as u64 + c.waiting as u64 + withdrawn as u64 <= MAX_TAKEN as u64
}

// Refusals 1 to 4. `connect`: the call is a connect.
pub fn standing(p: Profile, t: Station, a: &[u8], connect: bool) -> Result<(), Refusal>
    ensures { result ≡ standing_of p t a.now connect }
{
    let k = t.sender.link;
    if !in_range(p) {
        return Err(Refusal::ProfileOutOfRange);
    }
    if !in_order(p.short_bytes, p.long_bytes) {
        return Err(Refusal::ShortOverLong);
    }
    if !(messages_ok(t.messages, t.sender.counts.waiting)
        & is_sound(p, t.sender, a)
        & taken_ok(t.sender.counts, t.messages.withdrawn))
    {
        return Err(Refusal::Unsound);
    }
    if (k.connected & connect) | (!k.connected & !connect) {
        return Err(Refusal::OutOfTurn);
    }
    Ok(())
}

// 11, 8, 9 and 12, of n bytes more as one message of this class and label, where the messages m wait and 1 to 4 gave v. 8 and 12 are judged
// after the withdrawal.
pub fn queue_verdict(
    v: Result<(), Refusal>,
    c: Counts,
    m: Messages,
    class: u8,
    label: u16,
    n: usize,
) -> Result<(), Refusal>
    requires m_bound { passed v ≡ true → taken_by c m ≤ max_taken }
    requires sound_messages { passed v ≡ true → SoundMessages m c.waiting }
    ensures { result ≡ first_of v (room_verdict c m class label n) }
{
    v?;
    if MAX_CLASS < class {
        return Err(Refusal::BadClass);
    }
    let gone = superseded(m, label, n);
    queue_refusal(
        c.waiting - gone.bytes,
        c.next_offset + c.waiting + m.withdrawn,
        n,
    )?;
    if (0 < n) & (MAX_MESSAGES <= m.n - gone.n) {
        return Err(Refusal::TooManyMessages);
    }
    Ok(())
}

// 5 to 7, of a reply with a payload of n bytes after a call at `last`, where 1 to 4 gave v.
pub fn receive_verdict(
    v: Result<(), Refusal>,
    last: f64,
    h: Heard,
    r: Reply,
    n: usize,
) -> Result<(), Refusal>
    ensures { result ≡ first_of v (reply_verdict last h r n) }
{
    v?;
    if !time_ok(last, h.time) {
        return Err(Refusal::BadTime);
    }
    if !(heard_ok(h) & reply_ok(r)) {
        return Err(Refusal::BadValue);
    }
    if matches!(r, Reply::LongAck(_)) & (n < 13) {
        return Err(Refusal::ShortPayload);
    }
    Ok(())
}

// Whether one of 1 to 3 refuses the call: these come before 15.
// kept: by the number, since the check keeps of a pattern of three refusals that it is one, and not which.
fn is_early(v: Result<(), Refusal>) -> bool
    ensures { result ≡ (ltb 0 (number_of v) && leb (number_of v) 3) }
{
    match v {
        Ok(()) => false,
        Err(refusal) => u8::from(refusal) <= 3,
    }
}

// 15, of a reception of n frames, where 1 to 4 gave v.
fn frames_standing(v: Result<(), Refusal>, n: usize) -> Result<(), Refusal>
    ensures { result ≡ frames_standing v n }
{
    if is_early(v) {
        return v;
    }
    if MAX_RECEIVED < n {
        return Err(Refusal::TooManyFrames);
    }
    v
}

// 15, 5 and 6, of a reception of n frames after a call at `last`, where 1 to 4 gave v.
pub fn frames_verdict(v: Result<(), Refusal>, last: f64, h: Heard, n: usize) -> Result<(), Refusal>
    ensures { result ≡ first_of (frames_standing v n) (hearing_verdict last h) }
{
    frames_standing(v, n)?;
    if !time_ok(last, h.time) {
        return Err(Refusal::BadTime);
    }
    if !heard_ok(h) {
        return Err(Refusal::BadValue);
    }
    Ok(())
}

// 10, of a burst into n bytes with long frames of `long` bytes, where 1 to 4 gave v.
pub fn burst_verdict(v: Result<(), Refusal>, long: u32, n: usize) -> Result<(), Refusal>
    ensures { result ≡ first_of v (output_verdict long n) }
{
    v?;
    if n < MAX_SLOTS * (long as usize) {
        return Err(Refusal::ShortOutput);
    }
    Ok(())
}
