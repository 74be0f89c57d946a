// Text put into a lent buffer, of which n bytes are used: what runs past its end is left out. Each function gives what is used then, and a
// `Text` keeps it.
#![tactic(auto)]

ghost use Rattle.std.specs.Prelude.{◌≡◌, cond, List, [], ◌∷◌, ◌++◌, ℕ, ◌<◌};
ghost use Rattle.text.specs.Buffer.{put, appended, each};
ghost use Rattle.laws.specs.Text.{text};
ghost use Rattle.text.specs.Digits.{digit_char, decimal, hex_digits, pair};
ghost use Rattle.text.specs.Text.{Puts};
ghost use Rattle.text.specs.Words.{number_word, flag_word, maybe_word, single_word, double_word, hex, after_colon};

use float_bits::Pattern;

// One character.
pub fn put(t: &mut [u8], n: usize, c: u8) -> usize
    ensures { (result, t.new) ≡ put (n, t.old) c }
{
    if n < t.len() {
        t[n] = c;
        return n + 1;
    }
    n
}

// The characters of a slice.
pub fn puts(t: &mut [u8], n: usize, s: &[u8]) -> usize
    ensures { (result, t.new) ≡ appended (n, t.old) s.now }
{
    let mut n = n;
    for &c in s {
        n = put(t, n, c);
    }
    n
}

// A digit's character.
fn character(d: u64) -> u8
    requires { d < 16 }
    ensures { result ≡ digit_char d }
{
    if d < 10 {
        return b'0' + d as u8;
    }
    b'a' + (d - 10) as u8
}

#[tactic(auto, unfolding(crate::specs::Buffer::appended))]
fn digit(t: &mut [u8], n: usize, d: u64) -> usize
    requires { d < 16 }
    ensures { (result, t.new) ≡ appended (n, t.old) (digit_char d ∷ []) }
{
    put(t, n, character(d))
}

// A number in decimal.
fn decimal(t: &mut [u8], n: usize, x: u64) -> usize
    ensures { (result, t.new) ≡ appended (n, t.old) (decimal x) }
{
    if x < 10 {
        return digit(t, n, x);
    }
    let n = decimal(t, n, x / 10);
    digit(t, n, x % 10)
}

// The lowest k hexadecimal digits of a number.
fn hexadecimal(t: &mut [u8], n: usize, k: usize, x: u64) -> usize
    ensures { (result, t.new) ≡ appended (n, t.old) (hex_digits k x) }
{
    if k == 0 {
        return n;
    }
    let n = hexadecimal(t, n, k - 1, x / 16);
    digit(t, n, x % 16)
}

fn pair(t: &mut [u8], n: usize, b: u8) -> usize
    ensures { (result, t.new) ≡ appended (n, t.old) (pair b) }
{
    hexadecimal(t, n, 2, b as u64)
}

// A pair of digits for each byte.
fn pairs(t: &mut [u8], n: usize, a: &[u8]) -> usize
    ensures { (result, t.new) ≡ appended (n, t.old) (each pair a.now) }
{
    let mut n = n;
    for &b in a {
        n = pair(t, n, b);
    }
    n
}

// ---- the words, each with the space before it: for a caller that holds a buffer and its length; `Text` has each as a method

// N.
// kept: a u64 and no type parameter, since std says of `Into` a relation alone, and a usize has no `Into<u64>`.
pub fn number(t: &mut [u8], n: usize, x: u64) -> usize
    ensures { (result, t.new) ≡ appended (n, t.old) (number_word x) }
{
    let n = puts(t, n, b" ");
    decimal(t, n, x)
}

// A number after a colon.
pub fn after_colon(t: &mut [u8], n: usize, x: u64) -> usize
    ensures { (result, t.new) ≡ appended (n, t.old) (after_colon x) }
{
    let n = puts(t, n, b":");
    decimal(t, n, x)
}

// B.
#[tactic(auto, unfolding(crate::specs::Words::flag_word))]
pub fn flag(t: &mut [u8], n: usize, b: bool) -> usize
    ensures { (result, t.new) ≡ appended (n, t.old) (flag_word b) }
{
    if b {
        return puts(t, n, b" 1");
    }
    puts(t, n, b" 0")
}

// A float of 4 k bits: whether it is NaN, whether it is a zero, and its bits.
fn float(t: &mut [u8], n: usize, k: usize, nan: bool, zero: bool, bits: u64) -> usize
    ensures { (result, t.new) ≡ appended (n, t.old) (cond nan (text " nan") (text " 0x" ++ hex_digits k (cond zero 0 bits))) }
{
    if nan {
        return puts(t, n, b" nan");
    }
    let n = puts(t, n, b" 0x");
    if zero {
        return hexadecimal(t, n, k, 0);
    }
    hexadecimal(t, n, k, bits)
}

// F64.
pub fn double(t: &mut [u8], n: usize, x: f64) -> usize
    ensures { (result, t.new) ≡ appended (n, t.old) (double_word x) }
{
    float(t, n, 16, x != x, x == 0.0, x.pattern())
}

// F32.
pub fn single(t: &mut [u8], n: usize, x: f32) -> usize
    ensures { (result, t.new) ≡ appended (n, t.old) (single_word x) }
{
    float(t, n, 8, x != x, x == 0.0, u64::from(x.pattern()))
}

// What is written as a word.
pub trait Word: Drop {
    ghost word: { Self → List ℕ };

    fn write(self, t: &mut [u8], n: usize) -> usize
        ensures { (result, t.new) ≡ appended (n, t.old) (word self) };
}

impl Word for u64 {
    ghost word = { number_word };

    fn write(self, t: &mut [u8], n: usize) -> usize {
        number(t, n, self)
    }
}

impl Word for f32 {
    ghost word = { single_word };

    fn write(self, t: &mut [u8], n: usize) -> usize {
        single(t, n, self)
    }
}

impl Word for f64 {
    ghost word = { double_word };

    fn write(self, t: &mut [u8], n: usize) -> usize {
        double(t, n, self)
    }
}

// A word, or `none`.
pub fn maybe<T: Word>(t: &mut [u8], n: usize, x: Option<T>) -> usize
    ensures { (result, t.new) ≡ appended (n, t.old) (maybe_word T.word x) }
{
    match x {
        Some(x) => x.write(t, n),
        None => puts(t, n, b" none"),
    }
}

// HEX.
pub fn hex(t: &mut [u8], n: usize, a: &[u8]) -> usize
    ensures { (result, t.new) ≡ appended (n, t.old) (hex a.now) }
{
    if a.len() == 0 {
        return puts(t, n, b" -");
    }
    let n = puts(t, n, b" ");
    pairs(t, n, a)
}

// ---- a buffer with what is used of it

// A lent buffer, of which the first `len` bytes are used.
#[derive(Drop)]
pub struct Text<'a> {
    pub bytes: &'a mut [u8],
    pub len: usize,
}

// Each puts the word of that name.
impl Text<'_> {
    pub fn puts(&mut self, s: &[u8])
        ensures { Puts self.old s.now self.new }
    {
        self.len = puts(self.bytes, self.len, s);
    }

    pub fn number(&mut self, x: u64)
        ensures { Puts self.old (number_word x) self.new }
    {
        self.len = number(self.bytes, self.len, x);
    }

    pub fn after_colon(&mut self, x: u64)
        ensures { Puts self.old (after_colon x) self.new }
    {
        self.len = after_colon(self.bytes, self.len, x);
    }

    pub fn flag(&mut self, b: bool)
        ensures { Puts self.old (flag_word b) self.new }
    {
        self.len = flag(self.bytes, self.len, b);
    }

    pub fn double(&mut self, x: f64)
        ensures { Puts self.old (double_word x) self.new }
    {
        self.len = double(self.bytes, self.len, x);
    }

    pub fn single(&mut self, x: f32)
        ensures { Puts self.old (single_word x) self.new }
    {
        self.len = single(self.bytes, self.len, x);
    }

    pub fn maybe<T: Word>(&mut self, x: Option<T>)
        ensures { Puts self.old (maybe_word T.word x) self.new }
    {
        self.len = maybe(self.bytes, self.len, x);
    }

    pub fn hex(&mut self, a: &[u8])
        ensures { Puts self.old (hex a.now) self.new }
    {
        self.len = hex(self.bytes, self.len, a);
    }
}
