// The lines of a transcript (docs/CALLS.md), put into a lent buffer of which n bytes are used: each function gives what is used then.
#![tactic(auto)]

ghost use Rattle.std.specs.Prelude.{◌≡◌};
ghost use Rattle.text.specs.Buffer.{appended};
ghost use Rattle.text.specs.Text.{Puts};
ghost use Rattle.laws.specs.Text.{text};
ghost use Rattle.transcript.specs.Answers.{outcome, answer_line, piece_line, log_line, card_line, load_line, error_line};

use text::{Text, puts};

pub mod burst;
pub mod reached;

// How a call ended, by the refusal's number, 0 for none. kept: a number, as the answers of the C interface have it.
fn outcome(t: &mut Text, refusal: u8)
    ensures { Puts t.old (outcome refusal) t.new }
{
    if refusal == 0 {
        t.puts(b" ok");
        return;
    }
    t.puts(b" refused");
    t.number(refusal as u64);
}

// What a call answers, by its name and the refusal's number.
pub fn answer(t: &mut [u8], n: usize, name: &[u8], refusal: u8) -> usize
    ensures { (result, t.new) ≡ appended (n, t.old) (answer_line name.now refusal) }
{
    let mut t = Text { bytes: t, len: n };
    t.puts(name);
    outcome(&mut t, refusal);
    t.puts(b"\n");
    t.len
}

// A piece that is there.
pub fn piece(t: &mut [u8], n: usize, bytes: &[u8]) -> usize
    ensures { (result, t.new) ≡ appended (n, t.old) (piece_line bytes.now) }
{
    let mut t = Text { bytes: t, len: n };
    t.puts(b"piece");
    t.hex(bytes);
    t.puts(b"\n");
    t.len
}

pub fn no_piece(t: &mut [u8], n: usize) -> usize
    ensures { (result, t.new) ≡ appended (n, t.old) (text "piece none\n") }
{
    puts(t, n, b"piece none\n")
}

// A link's record.
pub fn log(t: &mut [u8], n: usize, chars: &[u8]) -> usize
    ensures { (result, t.new) ≡ appended (n, t.old) (log_line chars.now) }
{
    let mut t = Text { bytes: t, len: n };
    t.puts(b"log ok ");
    t.puts(chars);
    t.puts(b"\n");
    t.len
}

// A profile's file.
pub fn card(t: &mut [u8], n: usize, bytes: &[u8]) -> usize
    ensures { (result, t.new) ≡ appended (n, t.old) (card_line bytes.now) }
{
    let mut t = Text { bytes: t, len: n };
    t.puts(b"card ok");
    t.hex(bytes);
    t.puts(b"\n");
    t.len
}

// A file that was taken.
pub fn loaded(t: &mut [u8], n: usize, stretched: bool) -> usize
    ensures { (result, t.new) ≡ appended (n, t.old) (load_line stretched) }
{
    if stretched {
        return puts(t, n, b"load ok stretched\n");
    }
    puts(t, n, b"load ok\n")
}

// What closes a list whose line of this number breaks the rules.
pub fn error(t: &mut [u8], n: usize, line: u64) -> usize
    ensures { (result, t.new) ≡ appended (n, t.old) (error_line line) }
{
    let mut t = Text { bytes: t, len: n };
    t.puts(b"error");
    t.number(line);
    t.puts(b"\n");
    t.len
}
