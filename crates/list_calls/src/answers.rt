// The calls of a list that ask the sender, with their answers (docs/CALLS.md, Calls). Of the transcript's buffer t, n bytes are used.
ghost use Rattle.std.specs.Prelude.{◌≡◌, true};
ghost use Rattle.text.specs.Buffer.{appended};
ghost use Rattle.list_calls.specs.Answers.{told, frame_size, burst_text, burst_said, piece_answer};
ghost use Rattle.list_calls.specs.Answers.{piece_told, piece_wrote, bytes_with, answered, ask_said, said_of};

use crate::{AskLine, ask_line, made};
use byte_copy::least;
use call_lines::names::{Call, Named};
use config::Profile;
use queuing::Station;
use sender::{Burst, Left, LeftBurst, Place};
use words::{Read, done, whole};

// Bytes that a line can have as HEX: its 65,536 characters have no more pairs.
const BYTES: usize = 32768;

// What a line left: whether it was right, what is used of the transcript's buffer, and the record.
#[derive(Clone, Copy)]
pub struct Said {
    pub ok: bool,
    pub text: usize,
    pub next: Station,
}

// A frame's size at a level.
fn frame_size(p: Profile, level: usize) -> usize
    ensures { result ≡ frame_size p level }
{
    if level < 17 {
        return p.frame_bytes(level) as usize;
    }
    0
}

// The answer to a burst, whose frames stand in the output.
fn burst_text(b: Burst, size: usize, out: &[u8], t: &mut [u8], n: usize) -> usize
    ensures { (result, t.new) ≡ appended (n, t.old) (burst_text b size out.now) }
{
    let refusal = b.refusal;
    if refusal == 0 {
        return transcript::burst::burst(t, n, b.outgoing, size, out);
    }
    transcript::answer(t, n, b"burst", refusal)
}

// The answer to a burst, with the record after it.
fn burst_said(out: &[u8], t: &mut [u8], n: usize, b: LeftBurst, size: usize) -> Said
    ensures { (result, t.new)
        ≡ told true b.next (appended (n, t.old) (burst_text b.burst size out.now)) }
{
    let next = b.next;
    let text = burst_text(b.burst, size, out, t, n);
    Said {
        ok: true,
        text,
        next,
    }
}

fn burst(p: Profile, s: Station, area: &mut [u8], out: &mut [u8], t: &mut [u8], n: usize) -> Said
    ensures { (result, (area.new, (out.new, t.new)))
        ≡ burst_said p s area.old out.old (n, t.old) }
{
    let b = sender::data_burst(p, s, area, out);
    burst_said(out, t, n, b, frame_size(p, s.sender.gear.level))
}

// What a line left that changes no record: whether it was right, and what is used of the transcript's buffer.
#[derive(Clone, Copy)]
pub struct Wrote {
    pub ok: bool,
    pub text: usize,
}

// The answer to the question for a piece at `at`, by what was found there and its bytes.
fn piece_text(t: &mut [u8], n: usize, at: u64, found: Place, bytes: &[u8]) -> usize
    ensures { (result, t.new) ≡ appended (n, t.old) (piece_answer found bytes.now at) }
{
    let refusal = found.refusal;
    if refusal != 0 {
        return transcript::answer(t, n, b"piece", refusal);
    }
    if found.here & (at < 4294967296) {
        return transcript::piece(t, n, bytes);
    }
    transcript::no_piece(t, n)
}

// The same, where the line is right.
fn piece_wrote(bytes: &[u8], ok: bool, t: &mut [u8], n: usize, at: u64, found: Place) -> Wrote
    ensures { (result, t.new) ≡ piece_told ok (n, t.old) (piece_answer found bytes.now at) }
{
    if !ok {
        return Wrote { ok, text: n };
    }
    let text = piece_text(t, n, at, found, bytes);
    Wrote { ok, text }
}

// The question changes nothing, so it is asked before the line is judged.
fn piece(line: &[u8], r: Read, p: Profile, s: Station, area: &[u8], t: &mut [u8], n: usize) -> Wrote
    ensures { (result, t.new) ≡ piece_wrote p s area.now line.now r (n, t.old) }
{
    let q = whole(line, r);
    let ok = done(line, q);
    let off = (q.value % 4294967296) as u32;
    let bytes = sender::piece(p, s, area, off);
    piece_wrote(bytes, ok, t, n, q.value, sender::find(p, s, area, off))
}

// The answer to a queuing or a reply, by the first word of its line.
fn answered(line: &[u8], r: Read, ok: bool, refusal: u8, t: &mut [u8], n: usize) -> usize
    ensures { (result, t.new) ≡ answered ok refusal line.now r (n, t.old) }
{
    if !ok {
        return n;
    }
    let to = least(r.at, line);
    transcript::answer(t, n, &line[..to], refusal)
}

// That answer, with the record after the call.
fn replied(line: &[u8], r: Read, ok: bool, t: &mut [u8], n: usize, left: Left) -> Said
    ensures { (result, t.new) ≡ told ok left.next (answered ok left.refusal line.now r (n, t.old)) }
{
    let next = left.next;
    let text = answered(line, r, ok, left.refusal, t, n);
    Said { ok, text, next }
}

// How many bytes go with a line.
fn bytes_with(q: Option<AskLine>) -> usize
    ensures { result ≡ bytes_with q }
{
    match q {
        Some(q) => q.len,
        None => 0,
    }
}

#[tactic(auto, unfolding(crate::specs::Answers::ask_said))]
fn asked(
    call: Named,
    line: &[u8],
    p: Profile,
    s: Station,
    area: &mut [u8],
    t: &mut [u8],
    n: usize,
) -> Said
    ensures { (result, (area.new, t.new))
        ≡ ask_said p s area.old line.now call (n, t.old) }
{
    let mut bytes = [0u8; BYTES];
    let q = ask_line(call, line, &mut bytes);
    let len = least(bytes_with(q), &bytes);
    replied(
        line,
        call.read,
        q.is_some(),
        t,
        n,
        made(q, p, s, area, &bytes[..len]),
    )
}

// A burst, the question for a piece, a queuing or a reply. `burst` has no other word.
#[tactic(auto, unfolding(crate::specs::Answers::said_of))]
pub fn say(
    call: Named,
    line: &[u8],
    p: Profile,
    s: Station,
    area: &mut [u8],
    out: &mut [u8],
    t: &mut [u8],
    n: usize,
) -> Said
    ensures { (result, (area.new, (out.new, t.new)))
        ≡ said_of p s area.old out.old line.now call (n, t.old) }
{
    if matches!(call.call, Some(Call::Burst)) & done(line, call.read) {
        return burst(p, s, area, out, t, n);
    }
    if let Some(Call::Piece) = call.call {
        let q = piece(line, call.read, p, s, area, t, n);
        return Said {
            ok: q.ok,
            text: q.text,
            next: s,
        };
    }
    asked(call, line, p, s, area, t, n)
}
