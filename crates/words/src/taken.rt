// A line out of what was read of the input.
ghost use Rattle.std.specs.Prelude.{◌≡◌, length};
ghost use Rattle.words.specs.Lines.{stand as stand_of, ended_of, one_taken, line_taken};

use crate::Input;

// The line is whole; the input has ended before it; it breaks the rules; it goes on.
#[derive(Clone, Copy, PartialEq, Eq)]
pub enum Taken {
    Whole,
    End,
    Bad,
    More,
}

// The input at a place, with a line of `len` characters so far.
pub fn stand(i: Input, at: usize, len: usize, kind: Taken) -> Input
    ensures { result ≡ stand_of i at len kind }
{
    Input {
        at,
        end: i.end,
        len,
        kind,
    }
}

// Where the input ends: a line without a line feed breaks the rules.
fn ended(i: Input) -> Input
    ensures { result ≡ ended_of i }
{
    if i.len == 0 {
        return stand(i, i.at, i.len, Taken::End);
    }
    stand(i, i.at, i.len, Taken::Bad)
}

// One character more of the line.
pub fn take(chunk: &[u8], line: &mut [u8], i: Input) -> Input
    ensures value { result ≡ one_taken chunk.now (length line.old) i }
    ensures line_after { line.new ≡ line_taken chunk.now line.old i }
{
    let at = i.at;
    let len = i.len;
    if at >= i.end || at >= chunk.len() {
        return ended(i);
    }
    let c = chunk[at];
    if c == b'\n' {
        return stand(i, at + 1, len, Taken::Whole);
    }
    if c >= 128 || len >= line.len() {
        return stand(i, at + 1, len, Taken::Bad);
    }
    line[len] = c;
    stand(i, at + 1, len + 1, Taken::More)
}
