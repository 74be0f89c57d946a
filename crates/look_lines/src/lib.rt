// The lines of a call list that change neither the record nor the work area (docs/CALLS.md, Calls), with their answers; and the file that a
// line hands in. Of the transcript's buffer t, n bytes are used.
#![tactic(auto)]

ghost use Rattle.std.specs.Prelude.{◌≡◌, false};
ghost use Rattle.text.specs.Buffer.{appended};
ghost use Rattle.look_lines.specs.Looks.{line_left, state_shown, messages_shown, levels_text, levels_shown, card_text, card_shown, log_text, log_shown, look_shown, file_in, load_of};

use adif::{Logged, log_link};
use byte_copy::least;
use call_lines::names::{Call, Named};
use call_lines::{link_words, range_words};
use card::CARD_BYTES;
use config::Profile;
use messages::Messages;
use queuing::Station;
use reachable::{Listing, levels_under};
use words::{Read, done, hex, word};

// Bytes that a line can have as HEX: its 65,536 characters have no more pairs.
const BYTES: usize = 32768;

// What a line left: whether it was right, and what is used of the transcript's buffer.
#[derive(Clone, Copy)]
pub struct Shown {
    pub ok: bool,
    pub text: usize,
}

fn wrong(n: usize) -> Shown
    ensures { result ≡ line_left false n }
{
    Shown { ok: false, text: n }
}

// usual: the profile's max_burst_s.
fn state(line: &[u8], r: Read, usual: f64, s: Station, area: &[u8], t: &mut [u8], n: usize) -> Shown
    ensures { (result, t.new) ≡ state_shown usual s area.now line.now r (n, t.old) }
{
    if !done(line, r) {
        return wrong(n);
    }
    let burst_s = s.sender.gear.burst_seconds(usual);
    let text = state_lines::state(t, n, burst_s, s.sender, s.messages.withdrawn, area);
    Shown { ok: true, text }
}

// The messages that wait.
fn messages(line: &[u8], r: Read, m: Messages, t: &mut [u8], n: usize) -> Shown
    ensures { (result, t.new) ≡ messages_shown m line.now r (n, t.old) }
{
    if !done(line, r) {
        return wrong(n);
    }
    let text = state_lines::queue::messages(t, n, m);
    Shown { ok: true, text }
}

// The answer to a line about a range of reports.
fn levels_text(found: Listing, t: &mut [u8], n: usize) -> usize
    ensures { (result, t.new) ≡ appended (n, t.old) (levels_text found) }
{
    let refusal = found.refusal;
    if refusal == 0 {
        return transcript::reached::levels(t, n, found);
    }
    transcript::answer(t, n, b"levels", refusal)
}

fn levels(line: &[u8], r: Read, p: Profile, t: &mut [u8], n: usize) -> Shown
    ensures { (result, t.new) ≡ levels_shown p line.now r (n, t.old) }
{
    let q = range_words(line, r);
    if !q.ok {
        return wrong(n);
    }
    let found = levels_under(p, q.class, q.low, q.high);
    let text = levels_text(found, t, n);
    Shown { ok: true, text }
}

// The answer to `card`; the file stands in the output.
fn card_text(refusal: u8, out: &[u8], t: &mut [u8], n: usize) -> usize
    ensures { (result, t.new) ≡ appended (n, t.old) (card_text refusal out.now) }
{
    if refusal == 0 {
        let len = least(CARD_BYTES, out);
        return transcript::card(t, n, &out[..len]);
    }
    transcript::answer(t, n, b"card", refusal)
}

// The profile as a file.
fn card(line: &[u8], r: Read, p: Profile, out: &mut [u8], t: &mut [u8], n: usize) -> Shown
    ensures { (result, (out.new, t.new)) ≡ card_shown p out.old line.now r (n, t.old) }
{
    if !done(line, r) {
        return wrong(n);
    }
    let refusal = card::write(p, out);
    let text = card_text(refusal, out, t, n);
    Shown { ok: true, text }
}

// The answer to a link's line; its record stands in the output.
fn log_text(logged: Logged, out: &[u8], t: &mut [u8], n: usize) -> usize
    ensures { (result, t.new) ≡ appended (n, t.old) (log_text logged out.now) }
{
    let refusal = logged.refusal;
    if refusal == 0 {
        let len = least(logged.len, out);
        return transcript::log(t, n, &out[..len]);
    }
    transcript::answer(t, n, b"log", refusal)
}

fn log(line: &[u8], r: Read, out: &mut [u8], t: &mut [u8], n: usize) -> Shown
    ensures { (result, (out.new, t.new)) ≡ log_shown out.old line.now r (n, t.old) }
{
    let mut bytes = [0u8; BYTES];
    let q = link_words(line, r, &mut bytes);
    if !q.ok {
        return wrong(n);
    }
    let k = least(q.call, &bytes);
    let acked = (q.acked % 4294967296) as u32;
    let logged = log_link(&bytes[..k], q.start, q.end, acked, out);
    let text = log_text(logged, out, t, n);
    Shown { ok: true, text }
}

// A line that shows the record, the messages or the levels, or writes a card or a link's record into the output.
#[tactic(auto, unfolding(crate::specs::Looks::look_shown))]
pub fn look(
    call: Named,
    line: &[u8],
    p: Profile,
    s: Station,
    area: &[u8],
    out: &mut [u8],
    t: &mut [u8],
    n: usize,
) -> Shown
    ensures { (result, (out.new, t.new))
        ≡ look_shown p s area.now out.old line.now call (n, t.old) }
{
    let r = call.read;
    match call.call {
        Some(Call::State) => state(line, r, p.lengths.max_burst_s, s, area, t, n),
        Some(Call::Messages) => messages(line, r, s.messages, t, n),
        Some(Call::Levels) => levels(line, r, p, t, n),
        Some(Call::Card) => card(line, r, p, out, t, n),
        _ => log(line, r, out, t, n),
    }
}

// A line that hands in a file: whether it was right, how many bytes the file has, the refusal of reading it, and whether harq_stretch was on.
#[derive(Clone, Copy)]
pub struct LoadLine {
    pub ok: bool,
    pub len: usize,
    pub refusal: u8,
    pub stretched: bool,
}

// `load`: its file is put at the start of `bytes`. p: any profile, which a refused file would leave.
pub fn load(line: &[u8], bytes: &mut [u8], p: Profile) -> LoadLine
    ensures value { result ≡ load_of p bytes.old line.now }
    ensures bytes_after { bytes.new ≡ file_in bytes.old line.now }
{
    let r = word(line, b"load");
    let file = hex(line, r, bytes);
    let len = least(file.value as usize, bytes);
    let found = card::read(&bytes[..len], p);
    LoadLine {
        ok: done(line, file),
        len,
        refusal: found.refusal,
        stretched: found.stretched,
    }
}
