// The box of a call list (docs/CALLS.md, The box): the lines that ask it, each read, its call made and its answer put into the transcript's
// buffer t, of which n bytes are used. Lent beside it: its window w, the bytes h of the frames heard for the next reception, and the last
// burst's frames `sent`.
#![tactic(auto)]

ghost use Rattle.std.specs.Prelude.{◌≡◌, false, ◌+◌, ◌*◌, ◌≤◌, ◌<◌, leb, length, take};
ghost use Rattle.laws.specs.Bytes.{overwrite};
ghost use Rattle.box_calls.specs.BoxCalls.{most_heard, most_bytes, burst_frame_bytes, most_places, fresh_box, box_left, keep_frame};
ghost use Rattle.box_calls.specs.BoxCalls.{frame_said, heard_said, after_reception, taken_in, taken_said, receive_said, frames_room, frames_at};
ghost use Rattle.box_calls.specs.BoxCalls.{arriving_said, arrive_said, window_said, show_said, receptions_said, other_said};
ghost use Rattle.box_calls.specs.BoxCalls.{listen_said, burst_sent, long_ack_line};

use box_lines::{as_long, heard_words, kept_count, places_words, received, reception_words};
use byte_copy::{copy_in, least};
use receiver::{Listened, Receiver, receiver_rx};
use words::{Read, done, whole, word};

// Frames that may be heard before a reception, and the bytes of one that are kept: one of 513 is left out by its length.
const MOST_HEARD: usize = 128;

const MOST_BYTES: usize = 513;

// Bytes that a frame of a burst has at most, and the places that a line may name.
const FRAME_BYTES: u16 = 512;

const MOST_PLACES: usize = 1024;

// Bytes that the frames at so many places have at most.
const FRAMES_ROOM: usize = 524288;

// Bytes of output that there are, zeros at each call.
const OUT_BYTES: usize = 32768;

// kept: lengths and slot numbers stand in two arrays, since `receiver_rx` takes two slices.
// What a box keeps between lines: its record, how many places of its window are lent; of the frames heard the lengths, the slot numbers,
// how many they are, and how many bytes they have; the last burst's number, frames and frame size; its last answer, where it has answered.
#[derive(Clone, Copy)]
pub struct Box {
    pub receiver: Receiver,
    pub lent: usize,
    pub sizes: [u16; MOST_HEARD],
    pub slots: [u8; MOST_HEARD],
    pub heard: usize,
    pub used: usize,
    pub number: u8,
    pub frames: u8,
    pub size: u16,
    pub answer: Option<[u8; 13]>,
}

// What a line left: whether it was right, what is used of the transcript's buffer, and the box.
#[derive(Clone, Copy)]
pub struct BoxLeft {
    pub ok: bool,
    pub text: usize,
    pub next: Box,
}

// A fresh box, whose window is all zeros: nothing heard, no burst and no answer.
pub fn fresh() -> Box
    ensures { result ≡ fresh_box }
{
    let receiver = receiver::fresh();
    Box {
        receiver,
        lent: 32768,
        sizes: [0; MOST_HEARD],
        slots: [0; MOST_HEARD],
        heard: 0,
        used: 0,
        number: 0,
        frames: 0,
        size: 0,
        answer: None,
    }
}

fn wrong(b: Box, n: usize) -> BoxLeft
    ensures { result ≡ box_left false n b }
{
    BoxLeft {
        ok: false,
        text: n,
        next: b,
    }
}

// ---- heard

// Whether k bytes more have room behind the first `used` of `most`. kept: a difference, since the sum could pass the largest usize.
fn has_room(used: usize, k: usize, most: usize) -> bool
    ensures { result ≡ leb (used + k) most }
{
    if most < used {
        return false;
    }
    k <= most - used
}

// A frame for the next reception.
fn keep_frame(b: Box, slot: u8, bytes: &[u8], h: &mut [u8]) -> Box
    requires { (b.heard < most_heard) × (length bytes.now ≤ most_bytes) × (b.used + length bytes.now ≤ length h.old) }
    ensures { (result, h.new) ≡ keep_frame slot bytes.now (b, h.old) }
{
    let i = b.heard;
    let used = b.used;
    let n = bytes.len();
    copy_in(h, used, bytes);
    let mut next = b;
    next.sizes[i] = n as u16;
    next.slots[i] = slot;
    next.heard = i + 1;
    next.used = used + n;
    next
}

// A frame of these bytes is heard, as far as there is room.
fn hear_frame(slot: u8, bytes: &[u8], b: Box, h: &mut [u8], t: &mut [u8], n: usize) -> BoxLeft
    requires { length bytes.now ≤ most_bytes }
    ensures { (result, (h.new, t.new)) ≡ frame_said slot bytes.now b h.old (n, t.old) }
{
    let fits = (b.heard < MOST_HEARD) & has_room(b.used, bytes.len(), h.len());
    if !fits {
        return wrong(b, n);
    }
    let next = keep_frame(b, slot, bytes, h);
    let text = transcript::answer(t, n, b"heard", 0);
    BoxLeft {
        ok: true,
        text,
        next,
    }
}

fn hear(line: &[u8], r: Read, b: Box, h: &mut [u8], t: &mut [u8], n: usize) -> BoxLeft
    ensures { (result, (h.new, t.new)) ≡ heard_said line.now r b h.old (n, t.old) }
{
    let mut bytes = [0u8; 32768];
    let q = heard_words(line, r, &mut bytes);
    if !q.ok {
        return wrong(b, n);
    }
    let len = least(q.len.min(MOST_BYTES), &bytes);
    hear_frame(q.slot, &bytes[..len], b, h, t, n)
}

// ---- receive and arrive

// What a reception leaves: its record and its answer, where it was not refused. heard: it took the frames heard.
fn after(b: Box, q: Listened, heard: bool) -> Box
    ensures { result ≡ after_reception heard q b }
{
    let a = q.answer;
    if a.refusal != 0 {
        return b;
    }
    let receiver = q.next;
    let answer = a.payload;
    let mut next = b;
    next.receiver = receiver;
    next.answer = Some(answer);
    if heard {
        next.heard = 0;
        next.used = 0;
    }
    next
}

// A burst's frames in these bytes, of these lengths and with these slot numbers. w and out: what is lent of window and output.
fn take_in(
    name: &[u8],
    heard: bool,
    number: u8,
    db: u8,
    bytes: &[u8],
    sizes: &[u16],
    slots: &[u8],
    b: Box,
    w: &mut [u16],
    out: &mut [u8],
    t: &mut [u8],
    n: usize,
) -> BoxLeft
    ensures { (result, (w.new, t.new))
        ≡ taken_in name.now heard number db bytes.now sizes.now slots.now b
        w.old out.old (n, t.old) }
{
    let q = receiver_rx(b.receiver, w, number, bytes, sizes, slots, db, out);
    let a = q.answer;
    let k = least(a.handed as usize, out);
    let text = received(t, n, name, a, &out[..k]);
    let next = after(b, q, heard);
    BoxLeft {
        ok: true,
        text,
        next,
    }
}

// The same in the box's places and so much of the output.
fn taken(
    name: &[u8],
    heard: bool,
    number: u8,
    db: u8,
    bytes: &[u8],
    sizes: &[u16],
    slots: &[u8],
    b: Box,
    most: usize,
    w: &mut [u16],
    t: &mut [u8],
    n: usize,
) -> BoxLeft
    ensures { (result, (w.new, t.new))
        ≡ taken_said name.now heard number db bytes.now sizes.now slots.now b most
        w.old (n, t.old) }
{
    let mut out = [0u8; OUT_BYTES];
    let room = least(most, &out);
    let places = b.lent.min(w.len());
    take_in(
        name,
        heard,
        number,
        db,
        bytes,
        sizes,
        slots,
        b,
        &mut w[..places],
        &mut out[..room],
        t,
        n,
    )
}

fn receive(
    line: &[u8],
    r: Read,
    b: Box,
    most: usize,
    w: &mut [u16],
    h: &[u8],
    t: &mut [u8],
    n: usize,
) -> BoxLeft
    ensures { (result, (w.new, t.new))
        ≡ receive_said line.now r b most w.old h.now (n, t.old) }
{
    let q = reception_words(line, r);
    if !q.ok {
        return wrong(b, n);
    }
    let used = least(b.used, h);
    let sizes = b.sizes;
    let slots = b.slots;
    let k = least(b.heard, &slots);
    taken(
        b"receive",
        true,
        q.number,
        q.db,
        &h[..used],
        &sizes,
        &slots[..k],
        b,
        most,
        w,
        t,
        n,
    )
}

// The last burst's frames at these places, one after the other.
fn frames_at(sent: &[u8], places: &[u8], size: usize, bytes: &mut [u8])
    requires { (size ≤ burst_frame_bytes) × (length places.now ≤ most_places) × (burst_frame_bytes * most_places ≤ length bytes.old) }
    ensures { bytes.new ≡ overwrite bytes.old 0 (frames_at size sent.now places.now) }
{
    let mut used: usize = 0;
    for &place in places {
        let start = place as usize * size;
        let from = least(start, sent);
        let to = least(start + size, sent);
        copy_in(bytes, used, &sent[from..to]);
        used = used + (to - from);
    }
}

// Room for the frames at so many places.
fn frames_room() -> [u8; FRAMES_ROOM]
    ensures { result ≡ frames_room }
{
    [0; FRAMES_ROOM]
}

// The frames at these places arrive.
fn arriving(
    db: u8,
    places: &[u8],
    b: Box,
    most: usize,
    w: &mut [u16],
    sent: &[u8],
    t: &mut [u8],
    n: usize,
) -> BoxLeft
    requires { length places.now ≤ most_places }
    ensures { (result, (w.new, t.new))
        ≡ arriving_said db places.now b most w.old sent.now (n, t.old) }
{
    let mut bytes = frames_room();
    // as far as there is room for frames
    let size = b.size.min(FRAME_BYTES);
    frames_at(sent, places, size as usize, &mut bytes);
    let sizes = [b.size; MOST_PLACES];
    taken(
        b"arrive", false, b.number, db, &bytes, &sizes, places, b, most, w, t, n,
    )
}

fn arrive(
    line: &[u8],
    r: Read,
    b: Box,
    most: usize,
    w: &mut [u16],
    sent: &[u8],
    t: &mut [u8],
    n: usize,
) -> BoxLeft
    ensures { (result, (w.new, t.new))
        ≡ arrive_said line.now r b most w.old sent.now (n, t.old) }
{
    let mut places = [0u8; MOST_PLACES];
    let q = places_words(line, r, b.frames, &mut places);
    if !q.ok {
        return wrong(b, n);
    }
    let k = least(q.n, &places);
    arriving(q.db, &places[..k], b, most, w, sent, t, n)
}

// ---- window and box

// So many places are lent from here on.
fn lend(line: &[u8], r: Read, b: Box, t: &mut [u8], n: usize) -> BoxLeft
    ensures { (result, t.new) ≡ window_said line.now r b (n, t.old) }
{
    let q = whole(line, r);
    if !done(line, q) | (65536 < q.value) {
        return wrong(b, n);
    }
    let mut next = b;
    next.lent = q.value as usize;
    let text = transcript::answer(t, n, b"window", 0);
    BoxLeft {
        ok: true,
        text,
        next,
    }
}

fn show(line: &[u8], r: Read, b: Box, w: &[u16], t: &mut [u8], n: usize) -> BoxLeft
    ensures { (result, t.new) ≡ show_said line.now r b w.now (n, t.old) }
{
    if !done(line, r) {
        return wrong(b, n);
    }
    let text = box_lines::state(t, n, b.receiver.first_missing, kept_count(w));
    BoxLeft {
        ok: true,
        text,
        next: b,
    }
}

// ---- the lines

// A reception, or no line that there is. most: the output that is lent.
fn receptions(
    line: &[u8],
    b: Box,
    most: usize,
    w: &mut [u16],
    h: &[u8],
    sent: &[u8],
    t: &mut [u8],
    n: usize,
) -> BoxLeft
    ensures { (result, (w.new, t.new))
        ≡ receptions_said line.now b most w.old h.now sent.now (n, t.old) }
{
    let receives = word(line, b"receive");
    if receives.ok {
        return receive(line, receives, b, most, w, h, t, n);
    }
    let arrives = word(line, b"arrive");
    if arrives.ok {
        return arrive(line, arrives, b, most, w, sent, t, n);
    }
    wrong(b, n)
}

// A line that keeps the frames heard where they are.
fn other_line(
    line: &[u8],
    b: Box,
    most: usize,
    w: &mut [u16],
    h: &[u8],
    sent: &[u8],
    t: &mut [u8],
    n: usize,
) -> BoxLeft
    ensures { (result, (w.new, t.new))
        ≡ other_said line.now b most w.old h.now sent.now (n, t.old) }
{
    let lends = word(line, b"window");
    if lends.ok {
        return lend(line, lends, b, t, n);
    }
    let shows = word(line, b"box");
    if shows.ok {
        return show(line, shows, b, w, t, n);
    }
    receptions(line, b, most, w, h, sent, t, n)
}

// A line of the box. most: the output that is lent.
pub fn listen(
    line: &[u8],
    b: Box,
    most: usize,
    w: &mut [u16],
    h: &mut [u8],
    sent: &[u8],
    t: &mut [u8],
    n: usize,
) -> BoxLeft
    ensures { (result, (w.new, (h.new, t.new)))
        ≡ listen_said line.now b most w.old h.old sent.now (n, t.old) }
{
    let heard = word(line, b"heard");
    if heard.ok {
        return hear(line, heard, b, h, t, n);
    }
    other_line(line, b, most, w, h, sent, t, n)
}

// The burst that left the sender: its number, its frames, their size, and the output that has them.
pub fn burst_sent(b: Box, number: u8, frames: u8, size: u16, out: &[u8], sent: &mut [u8]) -> Box
    ensures { (result, sent.new) ≡ burst_sent number frames size out.now (b, sent.old) }
{
    let k = least(sent.len(), out);
    copy_in(sent, 0, &out[..k]);
    let mut next = b;
    next.number = number;
    next.frames = frames;
    next.size = size;
    next
}

// A line `reply` as one of a long ack, in `l`: how many characters it has, none where the box has not answered.
#[tactic(auto, unfolding(crate::specs::BoxCalls::long_ack_line))]
pub fn reply_line(line: &[u8], b: Box, l: &mut [u8]) -> usize
    ensures { (result, l.new) ≡ long_ack_line line.now b l.old }
{
    match b.answer {
        Some(answer) => as_long(line, &answer, l),
        None => 0,
    }
}
