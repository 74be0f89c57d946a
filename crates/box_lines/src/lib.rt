// The lines of a call list that are the box's (docs/CALLS.md): their words read, and their answers put into a lent buffer of which n bytes
// are used.
#![tactic(auto)]

ghost use Rattle.std.specs.Prelude.{◌≡◌, ◌++◌, ◌≤◌, min, length};
ghost use Rattle.laws.specs.Bytes.{overwrite};
ghost use Rattle.text.specs.Buffer.{appended};
ghost use Rattle.text.specs.Words as T;
ghost use Rattle.words.specs.Lines.{chars_of, next_word, read_as};
ghost use Rattle.words.specs.Words.{decimal_of, hex_into};
ghost use Rattle.receiver.specs.Frames.{box_bytes};
ghost use Rattle.box_lines.specs.BoxLines.{heard_line, reception_line, places_from, places_line, received_line, box_line, kept_count};

use call_lines::u8_of;
use receiver::Received;
use text::{number, puts};
use words::{Read, done, hex, whole};

// Places that a box has.
const PLACES: usize = 32768;

// A frame's line: its slot number, how many bytes it has, and whether the line was right.
#[derive(Clone, Copy)]
pub struct HeardLine {
    pub slot: u8,
    pub len: usize,
    pub ok: bool,
}

// SLOT and HEX, whose bytes are put at the start of `bytes`.
pub fn heard_words(line: &[u8], r: Read, bytes: &mut [u8]) -> HeardLine
    ensures value { result ≡ heard_line (length bytes.old) line.now r }
    ensures bytes_after { bytes.new
        ≡ hex_into bytes.old (chars_of line.now (next_word line.now (read_as decimal_of line.now r))) }
{
    let slot = whole(line, r);
    let frame = hex(line, slot, bytes);
    HeardLine {
        slot: u8_of(slot.value),
        len: frame.value as usize,
        ok: done(line, frame),
    }
}

// A reception's line: the burst's number, the dB byte to answer, and whether the line was right.
#[derive(Clone, Copy)]
pub struct ReceptionLine {
    pub number: u8,
    pub db: u8,
    pub ok: bool,
}

// NUMBER and DB.
pub fn reception_words(line: &[u8], r: Read) -> ReceptionLine
    ensures { result ≡ reception_line line.now r }
{
    let number = whole(line, r);
    let db = whole(line, number);
    ReceptionLine {
        number: u8_of(number.value),
        db: (db.value % 256) as u8,
        ok: done(line, db),
    }
}

// The places that a line names: the dB byte to answer, how many there are, and whether the line was right.
#[derive(Clone, Copy)]
pub struct PlacesLine {
    pub db: u8,
    pub n: usize,
    pub ok: bool,
}

// How many places stand behind what was read, and whether the line ends there.
#[derive(Clone, Copy)]
pub struct PlacesRead {
    pub n: usize,
    pub ok: bool,
}

// The places behind what was read, each below `frames`, as far as there is room for them.
fn places_from(line: &[u8], r: Read, frames: u64, places: &mut [u8]) -> PlacesRead
    requires { frames ≤ 256 }
    ensures value { result ≡ record {
      n = length (places_from (length places.old) frames line.now r).0;
      ok = (places_from (length places.old) frames line.now r).1;
    } }
    ensures places_after { places.new ≡ overwrite places.old 0 (places_from (length places.old) frames line.now r).0 }
{
    let mut q = r;
    for n in 0..places.len() {
        let place = whole(line, q);
        if !place.ok {
            return PlacesRead {
                n,
                ok: done(line, q),
            };
        }
        if place.value >= frames {
            return PlacesRead { n, ok: false };
        }
        places[n] = place.value as u8;
        q = place;
    }
    PlacesRead {
        n: places.len(),
        ok: done(line, q),
    }
}

// DB and the places, each below `frames`.
pub fn places_words(line: &[u8], r: Read, frames: u8, places: &mut [u8]) -> PlacesLine
    ensures value { result ≡ places_line (length places.old) frames line.now r }
    ensures places_after { places.new
        ≡ overwrite places.old 0 (places_from (length places.old) frames line.now (read_as decimal_of line.now r)).0 }
{
    let db = whole(line, r);
    let q = places_from(line, db, frames as u64, places);
    PlacesLine {
        db: (db.value % 256) as u8,
        n: q.n,
        ok: q.ok,
    }
}

// What the box answered, by the line's first word; `handed` are the bytes handed on.
pub fn received(t: &mut [u8], n: usize, name: &[u8], q: Received, handed: &[u8]) -> usize
    ensures { (result, t.new) ≡ appended (n, t.old) (received_line name.now q handed.now) }
{
    let refusal = q.refusal;
    if refusal != 0 {
        return transcript::answer(t, n, name, refusal);
    }
    let payload = q.payload;
    let n = puts(t, n, name);
    let n = puts(t, n, b" ok");
    let n = text::hex(t, n, &payload);
    let n = number(t, n, q.wrong as u64);
    let n = number(t, n, q.beyond as u64);
    let n = text::hex(t, n, handed);
    puts(t, n, b"\n")
}

// The box's state: its first missing byte, and how many bytes it keeps.
pub fn state(t: &mut [u8], n: usize, first: u32, kept: usize) -> usize
    ensures { (result, t.new) ≡ appended (n, t.old) (box_line first kept) }
{
    let n = puts(t, n, b"box");
    let n = number(t, n, first as u64);
    let n = number(t, n, kept as u64);
    puts(t, n, b"\n")
}

// The box's places of a window that has so many.
fn places_of(n: usize) -> usize
    ensures { result ≡ min n box_bytes }
{
    n.min(PLACES)
}

// How many bytes a window keeps.
pub fn kept_count(w: &[u16]) -> usize
    ensures { result ≡ kept_count w.now }
{
    let end = places_of(w.len());
    let mut n: usize = 0;
    for i in 0..end {
        if w[i] < 256 {
            continue;
        }
        n += 1;
    }
    n
}

// A line `reply` as one of a long ack: the box's answer behind its words.
pub fn as_long(line: &[u8], answer: &[u8], l: &mut [u8]) -> usize
    ensures { (result, l.new) ≡ appended (0, l.old) (line.now ++ T.hex answer.now) }
{
    let n = puts(l, 0, line);
    text::hex(l, n, answer)
}
