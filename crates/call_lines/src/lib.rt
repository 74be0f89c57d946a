// A call's line, read: the words after its name become the call's arguments (docs/CALLS.md, Calls).
#![tactic(auto)]

ghost use Rattle.std.specs.Prelude.{◌≡◌, cond, ◌%◌, ◌≤◌, length};
ghost use Rattle.words.specs.Words.{hex_into};
ghost use Rattle.words.specs.Lines.{chars_of, next_word};
ghost use Rattle.call_lines.specs.CallLines.{field_byte, heard_first, class_words, wish_words, burst_words, connect_line, short_line};
ghost use Rattle.call_lines.specs.CallLines.{turn_line, long_wishes, long_line, no_frames, placed, frame_words, frames_line, queue_line, log_line_read, range_line};

use byte_copy::least;
use config::MaybeDb;
use float_bits::Pattern;
use profile_table::single_of;
use reception::Reception;
use refusals::MAX_RECEIVED;
use replies::{Ack, ConnAck, Heard, LongAck, Turn};
use report::ChanClass;
use words::{Read, done, double, flag, hex, none, single, whole};

pub mod names;

// A reply's time, wave and dB measured here, and how far its line was read.
#[derive(Clone, Copy)]
pub struct Hearing {
    pub heard: Heard,
    pub read: Read,
}

// A short ack's line, and whether it was right.
#[derive(Clone, Copy)]
pub struct ShortLine {
    pub heard: Heard,
    pub reply: Ack,
    pub ok: bool,
}

// A number too wide for its field is the largest.
pub fn u8_of(n: u64) -> u8
    ensures { result ≡ field_byte n }
{
    u8::try_from(n).unwrap_or(u8::MAX)
}

// T, W and HERE.
fn heard_first(line: &[u8], r: Read) -> Hearing
    ensures { result ≡ heard_first line.now r }
{
    let time = double(line, r);
    let wave = whole(line, time);
    let here = single(line, wave);
    Hearing {
        heard: Heard {
            time: f64::of_bits(time.value),
            wave: u8_of(wave.value),
            snr_db: single_of(here.value),
        },
        read: here,
    }
}

// ECHO, DOPPLER and SLOT.
#[derive(Clone, Copy)]
pub struct ClassWords {
    pub class: ChanClass,
    pub slot: u8,
    pub read: Read,
}

fn class_words(line: &[u8], r: Read) -> ClassWords
    ensures { result ≡ class_words line.now r }
{
    let echo = flag(line, r);
    let doppler = flag(line, echo);
    let slot = whole(line, doppler);
    ClassWords {
        class: ChanClass {
            echo: echo.value == 1,
            doppler: doppler.value == 1,
        },
        slot: u8_of(slot.value),
        read: slot,
    }
}

// WANT_TURN, WANT_DISC and STORED.
#[derive(Clone, Copy)]
pub struct WishWords {
    pub turn: bool,
    pub disc: bool,
    pub stored: bool,
    pub read: Read,
}

fn wish_words(line: &[u8], r: Read) -> WishWords
    ensures { result ≡ wish_words line.now r }
{
    let turn = flag(line, r);
    let disc = flag(line, turn);
    let stored = flag(line, disc);
    WishWords {
        turn: turn.value == 1,
        disc: disc.value == 1,
        stored: stored.value == 1,
        read: stored,
    }
}

// BURST, BITMAP and DB.
#[derive(Clone, Copy)]
pub struct BurstWords {
    pub burst: u8,
    pub bitmap: u8,
    pub db: f32,
    pub read: Read,
}

fn burst_words(line: &[u8], r: Read) -> BurstWords
    ensures { result ≡ burst_words line.now r }
{
    let burst = whole(line, r);
    let bitmap = whole(line, burst);
    let db = single(line, bitmap);
    BurstWords {
        burst: u8_of(burst.value),
        bitmap: u8_of(bitmap.value),
        db: single_of(db.value),
        read: db,
    }
}

// A connect answer's line, and whether it was right.
#[derive(Clone, Copy)]
pub struct ConnectLine {
    pub heard: Heard,
    pub reply: ConnAck,
    pub ok: bool,
}

pub fn connect_words(line: &[u8], r: Read) -> ConnectLine
    ensures { result ≡ connect_line line.now r }
{
    let h = heard_first(line, r);
    let heard = h.heard;
    let session = whole(line, h.read);
    let db = single(line, session);
    let k = class_words(line, db);
    let class = k.class;
    let cue = flag(line, k.read);
    ConnectLine {
        heard,
        reply: ConnAck {
            session: (session.value % 256) as u8,
            snr_db: single_of(db.value),
            class,
            slot: k.slot,
            cue: cue.value == 1,
        },
        ok: done(line, cue),
    }
}

pub fn short_words(line: &[u8], r: Read) -> ShortLine
    ensures { result ≡ short_line line.now r }
{
    let h = heard_first(line, r);
    let heard = h.heard;
    let b = burst_words(line, h.read);
    let w = wish_words(line, b.read);
    let k = class_words(line, w.read);
    let class = k.class;
    ShortLine {
        heard,
        reply: Ack {
            burst: b.burst,
            bitmap: b.bitmap,
            snr_db: b.db,
            want_turn: w.turn,
            want_disc: w.disc,
            stored: w.stored,
            class,
            slot: k.slot,
        },
        ok: done(line, k.read),
    }
}

// A turn's line, and whether it was right.
#[derive(Clone, Copy)]
pub struct TurnLine {
    pub heard: Heard,
    pub reply: Turn,
    pub ok: bool,
}

pub fn turn_words(line: &[u8], r: Read) -> TurnLine
    ensures { result ≡ turn_line line.now r }
{
    let h = heard_first(line, r);
    let heard = h.heard;
    let no_db = none(line, h.read);
    let db = single(line, h.read);
    let report = MaybeDb {
        set: !no_db.ok,
        db: single_of(db.value),
    };
    TurnLine {
        heard,
        reply: Turn { report },
        ok: done(line, no_db) | done(line, db),
    }
}

// A long ack's line: the reply, how many bytes its payload has, and whether the line was right. The payload is put at the start of `bytes`.
#[derive(Clone, Copy)]
pub struct LongLine {
    pub heard: Heard,
    pub reply: LongAck,
    pub payload: usize,
    pub ok: bool,
}

pub fn long_words(line: &[u8], r: Read, bytes: &mut [u8]) -> LongLine
    ensures value { result ≡ long_line (length bytes.old) line.now r }
    ensures bytes_after { bytes.new
        ≡ hex_into bytes.old (chars_of line.now (next_word line.now (long_wishes line.now r).read)) }
{
    let h = heard_first(line, r);
    let heard = h.heard;
    let w = wish_words(line, h.read);
    let payload = hex(line, w.read, bytes);
    LongLine {
        heard,
        reply: LongAck {
            want_turn: w.turn,
            want_disc: w.disc,
            stored: w.stored,
        },
        payload: payload.value as usize,
        ok: done(line, payload),
    }
}

fn no_frames(n: usize) -> Reception
    ensures { result ≡ no_frames n }
{
    Reception {
        n,
        kind: [0; MAX_RECEIVED],
        flags: [0; MAX_RECEIVED],
        len: [0; MAX_RECEIVED],
    }
}

fn placed(q: Reception, i: usize, kind: u8, flags: u8, len: u32) -> Reception
    ensures { result ≡ placed q i kind flags len }
{
    let mut q = q;
    if i < MAX_RECEIVED {
        q.kind[i] = kind;
        q.flags[i] = flags;
        q.len[i] = len;
    }
    q
}

// The frames that were read so far: how far the line was read, what they are, and how many bytes their payloads have.
#[derive(Clone, Copy)]
pub struct FrameWords {
    pub read: Read,
    pub reception: Reception,
    pub used: usize,
}

// KIND FLAGS PAYLOAD of the frame at place i. The payload is put behind the bytes that are used.
fn frame_words(line: &[u8], i: usize, g: FrameWords, bytes: &mut [u8]) -> FrameWords
    requires { g.used ≤ length bytes.old }
    ensures bytes_after { (result, bytes.new) ≡ frame_words line.now i (g, bytes.old) }
    ensures used_in_bounds { result.used ≤ length bytes.new }
{
    let at = g.used;
    let room = bytes.len() - at;
    let kind = whole(line, g.read);
    let flags = whole(line, kind);
    let payload = hex(line, flags, &mut bytes[at..]);
    let n = (payload.value as usize).min(room);
    let reception = placed(
        g.reception,
        i,
        u8_of(kind.value),
        (flags.value % 256) as u8,
        (n % 4294967296) as u32,
    );
    FrameWords {
        read: payload,
        reception,
        used: at + n,
    }
}

// A reception's line: its frames, how many bytes their payloads have, and whether the line was right. The payloads are put at the start of
// `bytes`, back to back.
#[derive(Clone, Copy)]
pub struct FramesLine {
    pub heard: Heard,
    pub reception: Reception,
    pub used: usize,
    pub ok: bool,
}

// COUNT, where it is at most 64.
fn frame_count(few: bool, n: u64) -> usize
    ensures { result ≡ cond few n 0 }
{
    if few {
        return n as usize;
    }
    0
}

pub fn frames_words(line: &[u8], r: Read, bytes: &mut [u8]) -> FramesLine
    ensures { (result, bytes.new) ≡ frames_line bytes.old line.now r }
{
    let h = heard_first(line, r);
    let heard = h.heard;
    let count = whole(line, h.read);
    let few = count.value <= 64;
    let n = frame_count(few, count.value);
    let reception = no_frames(n);
    let mut g = FrameWords {
        read: count,
        reception,
        used: 0,
    };
    for i in 0..n {
        g = frame_words(line, i, g, bytes);
    }
    let reception = g.reception;
    FramesLine {
        heard,
        reception,
        used: g.used,
        ok: done(line, g.read) & few,
    }
}

// The class of a message whose line names none: routine.
const ROUTINE: u8 = 3;

// CLASS, where it was named.
fn class_of(named: bool, n: u64) -> u8
    ensures { result ≡ cond named (field_byte n) 3 }
{
    if named {
        return u8_of(n);
    }
    ROUTINE
}

// LABEL, where there is one.
fn label_of(labelled: bool, n: u64) -> u16
    ensures { result ≡ cond labelled (n % 65536) 0 }
{
    if labelled {
        return (n % 65536) as u16;
    }
    0
}

// A queuing's line: how many bytes it has, their class and label, and whether the line was right. The bytes are put at the start of `bytes`.
#[derive(Clone, Copy)]
pub struct QueueLine {
    pub len: usize,
    pub class: u8,
    pub label: u16,
    pub ok: bool,
}

pub fn queue_words(line: &[u8], r: Read, bytes: &mut [u8]) -> QueueLine
    ensures value { result ≡ queue_line (length bytes.old) line.now r }
    ensures bytes_after { bytes.new ≡ hex_into bytes.old (chars_of line.now (next_word line.now r)) }
{
    let text = hex(line, r, bytes);
    let class = whole(line, text);
    let label = whole(line, class);
    let labelled = done(line, label);
    let named = labelled | done(line, class);
    QueueLine {
        len: text.value as usize,
        class: class_of(named, class.value),
        label: label_of(labelled, label.value),
        ok: named | done(line, text),
    }
}

// A finished link's line: how many bytes its call sign has, its seconds and its count, and whether the line was right.
#[derive(Clone, Copy)]
pub struct LinkLine {
    pub call: usize,
    pub start: u64,
    pub end: u64,
    pub acked: u64,
    pub ok: bool,
}

pub fn link_words(line: &[u8], r: Read, bytes: &mut [u8]) -> LinkLine
    ensures value { result ≡ log_line_read (length bytes.old) line.now r }
    ensures bytes_after { bytes.new ≡ hex_into bytes.old (chars_of line.now (next_word line.now r)) }
{
    let call = hex(line, r, bytes);
    let start = whole(line, call);
    let end = whole(line, start);
    let acked = whole(line, end);
    LinkLine {
        call: call.value as usize,
        start: start.value,
        end: end.value,
        acked: acked.value,
        ok: done(line, acked) & (acked.value < 4294967296),
    }
}

// A line about a range of reports: the channel's class, the lowest and the highest, and whether it was right.
#[derive(Clone, Copy)]
pub struct RangeLine {
    pub class: ChanClass,
    pub low: u8,
    pub high: u8,
    pub ok: bool,
}

// LOW stands behind the class as a SLOT does.
pub fn range_words(line: &[u8], r: Read) -> RangeLine
    ensures { result ≡ range_line line.now r }
{
    let k = class_words(line, r);
    let class = k.class;
    let high = whole(line, k.read);
    RangeLine {
        class: class,
        low: k.slot,
        high: u8_of(high.value),
        ok: done(line, high),
    }
}
