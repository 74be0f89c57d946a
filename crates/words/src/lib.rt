// The words of a call list (docs/CALLS.md, Lines and words): what each means, and a line, lent without its line feed, read word by word.
#![tactic(auto)]

ghost use Rattle.std.specs.Prelude.{◌≡◌, ◌≤◌, length};
ghost use Rattle.words.specs.Lines.{Inside, AnyInside, end_of, first_word, next_word, read_to, read_as, chars_of, begun, is_done};
ghost use Rattle.words.specs.Words.{decimal_of, bits_of, flag_of, none_of, hex_count, hex_into};

mod digits;
pub mod meaning;
pub mod taken;

use taken::Taken;

// A word's place in its line, from its first character to past its last.
#[derive(Clone, Copy)]
pub struct Cut {
    pub from: usize,
    pub to: usize,
}

// How far a line was read: the place after its last word, whether all was right so far, and that word's number.
#[derive(Clone, Copy)]
pub struct Read {
    pub at: usize,
    pub ok: bool,
    pub value: u64,
}

// What was read of the input and is not used yet, and the line that is being read: `len` characters of it so far.
#[derive(Clone, Copy)]
pub struct Input {
    pub at: usize,
    pub end: usize,
    pub len: usize,
    pub kind: Taken,
}

// The number of the word `none`: more than any number that is kept.
pub const NONE: u64 = 18446744073709551615;

// Where the word ends that starts at a place.
fn end_from(line: &[u8], at: usize) -> usize
    requires { at ≤ length line.now }
    ensures { (result ≡ end_of line.now at) × ((at ≤ result) × (result ≤ length line.now)) }
{
    for e in at..line.len() {
        if line[e] == b' ' {
            return e;
        }
    }
    line.len()
}
// The first word.
fn first_word(line: &[u8]) -> Cut
    ensures { (result ≡ first_word line.now) × Inside result line.now }
{
    Cut {
        from: 0,
        to: end_from(line, 0),
    }
}

// The word after what was read.
pub fn next_word(line: &[u8], r: Read) -> Option<Cut>
    ensures { (result ≡ next_word line.now r) × AnyInside result line.now }
{
    let at = r.at;
    if !r.ok || at >= line.len() {
        return None;
    }
    if line[at] != b' ' {
        return None;
    }
    Some(Cut {
        from: at + 1,
        to: end_from(line, at + 1),
    })
}

// A word's characters; no word has none.
pub fn chars(line: &[u8], c: Option<Cut>) -> &[u8]
    requires { AnyInside c line.now }
    ensures { result.now ≡ chars_of line.now c }
{
    match c {
        Some(c) => &line[c.from..c.to],
        None => &line[..0],
    }
}

// The line is read to a word's end; without a word, or where it means no number, no more of it is read.
pub fn read_to(c: Option<Cut>, n: Option<u64>) -> Read
    ensures { result ≡ read_to c n }
{
    let at = match c {
        Some(c) => c.to,
        None => 0,
    };
    Read {
        at,
        ok: c.is_some() & n.is_some(),
        value: n.unwrap_or(0),
    }
}

// The first word, if it is `name`.
pub fn word(line: &[u8], name: &[u8]) -> Read
    ensures { result ≡ begun line.now name.now }
{
    let c = Some(first_word(line));
    read_to(c, meaning::named(chars(line, c), name, 0))
}

// The end of the line.
pub fn done(line: &[u8], r: Read) -> bool
    ensures { result ≡ is_done line.now r }
{
    r.ok & (r.at == line.len())
}

// N.
pub fn whole(line: &[u8], r: Read) -> Read
    ensures { result ≡ read_as decimal_of line.now r }
{
    let c = next_word(line, r);
    read_to(c, meaning::decimal(chars(line, c)))
}

fn pattern(line: &[u8], r: Read, n: usize) -> Read
    ensures { result ≡ read_as (bits_of n) line.now r }
{
    let c = next_word(line, r);
    read_to(c, meaning::bits(chars(line, c), n))
}

// F32, by its bits.
pub fn single(line: &[u8], r: Read) -> Read
    ensures { result ≡ read_as (bits_of 8) line.now r }
{
    pattern(line, r, 8)
}

// F64, by its bits.
pub fn double(line: &[u8], r: Read) -> Read
    ensures { result ≡ read_as (bits_of 16) line.now r }
{
    pattern(line, r, 16)
}

// B.
pub fn flag(line: &[u8], r: Read) -> Read
    ensures { result ≡ read_as flag_of line.now r }
{
    let c = next_word(line, r);
    read_to(c, meaning::flag(chars(line, c)))
}

// The word `none`.
pub fn none(line: &[u8], r: Read) -> Read
    ensures { result ≡ read_as none_of line.now r }
{
    let c = next_word(line, r);
    read_to(c, meaning::named(chars(line, c), b"none", NONE))
}

// HEX: the bytes are put at the start of `bytes`, and the number is how many there are.
pub fn hex(line: &[u8], r: Read, bytes: &mut [u8]) -> Read
    ensures value { result ≡ read_as (hex_count (length bytes.old)) line.now r }
    ensures bytes_after { bytes.new ≡ hex_into bytes.old (chars_of line.now (next_word line.now r)) }
{
    let c = next_word(line, r);
    read_to(c, meaning::hex(chars(line, c), bytes))
}
