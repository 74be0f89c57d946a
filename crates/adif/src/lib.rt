// A finished link as one ADIF 3 record (document 02, Change 13).
#![tactic(auto)]

ghost use Rattle.std.specs.Prelude.{◌≡◌, [], ◌∷◌, ◌+◌, ◌≤◌, length};
ghost use Rattle.laws.specs.Bytes.{overwrite};
ghost use Rattle.adif.specs.Adif.{last_digits, digit_count, numeral, date_text, time_text, written, record_of};
ghost use Rattle.adif.specs.Adif.{sign_char, sign_ok, refusal_of, number_of, log_of};
ghost use Rattle.adif.specs.AdifCode.{Put, moment, told, answer_of};

use byte_copy::copy_in;
use calendar::{date_of, time_of};

// 31 December 2099, 23:59:59.
const LAST_SECOND: u64 = 4102444799;

// Why a link is not logged: its call sign; a time past 2099, or the end before the start; an output under 256 bytes.
#[derive(Clone, Copy, Debug, PartialEq, Eq)]
pub enum Refusal {
    CallSign,
    Times,
    ShortOutput,
}

impl Refusal {
    // The papers' number.
    pub fn number(self) -> u8
        ensures { result ≡ number_of self }
    {
        match self {
            Refusal::CallSign => 20,
            Refusal::Times => 21,
            Refusal::ShortOutput => 22,
        }
    }
}

// What a call answers: 0 and the characters written, or the refusal's number and 0.
// kept: the number beside the length: C interface.
#[repr(C)]
#[derive(Clone, Copy)]
pub struct Logged {
    pub refusal: u8,
    pub len: usize,
}

// One character. This and what follows answers the place behind what it wrote, where it answers a place.
fn put_char(out: &mut [u8], at: usize, c: u8) -> usize
    requires { at + 1 ≤ length out.old }
    ensures { Put out.old at (c ∷ []) out.new result }
{
    out[at] = c;
    at + 1
}

fn put_all(out: &mut [u8], at: usize, bytes: &[u8]) -> usize
    requires { at + length bytes.now ≤ length out.old }
    ensures { Put out.old at bytes.now out.new result }
{
    copy_in(out, at, bytes);
    at + bytes.len()
}

// The last k digits of n, zeros in front, from the last to the first.
fn put_digits(out: &mut [u8], at: usize, k: usize, n: u64)
    requires { at + k ≤ length out.old }
    ensures { out.new ≡ overwrite out.old at (last_digits k n) }
{
    let mut rest = n;
    for i in (0..k).rev() {
        out[at + i] = b'0' + (rest % 10) as u8;
        rest /= 10;
    }
}

// How many digits a number below 10^10 has.
fn count_digits(n: u64) -> usize
    ensures { result ≡ digit_count 9 n }
{
    let mut rest = n;
    for k in 1..10 {
        if rest < 10 {
            return k;
        }
        rest /= 10;
    }
    10
}

// A number in decimal.
fn put_decimal(out: &mut [u8], at: usize, n: u64) -> usize
    requires { at + 10 ≤ length out.old }
    ensures { Put out.old at (numeral n) out.new result }
{
    let k = count_digits(n);
    put_digits(out, at, k, n);
    at + k
}

// `<NAME:count>` and the characters.
fn put_field(out: &mut [u8], at: usize, name: &[u8], value: &[u8]) -> usize
    requires { at + (length name.now + length value.now + 13) ≤ length out.old }
    ensures { Put out.old at (written name.now value.now) out.new result }
{
    let a = put_char(out, at, b'<');
    let b = put_all(out, a, name);
    let c = put_char(out, b, b':');
    let d = put_decimal(out, c, value.len() as u64);
    let e = put_char(out, d, b'>');
    put_all(out, e, value)
}

fn date_text(t: u64) -> [u8; 8]
    ensures { result ≡ date_text t }
{
    let d = date_of(t);
    let mut b = [0u8; 8];
    put_digits(&mut b, 0, 4, d.year);
    put_digits(&mut b, 4, 2, d.month);
    put_digits(&mut b, 6, 2, d.day);
    b
}

fn time_text(t: u64) -> [u8; 6]
    ensures { result ≡ time_text t }
{
    let d = time_of(t);
    let mut b = [0u8; 6];
    put_digits(&mut b, 0, 2, d.hour);
    put_digits(&mut b, 2, 2, d.minute);
    put_digits(&mut b, 4, 2, d.second);
    b
}

// The fields of a second: its date and its time.
fn put_moment(out: &mut [u8], at: usize, dated: &[u8], timed: &[u8], t: u64) -> usize
    requires { at + (length dated.now + length timed.now + 40) ≤ length out.old }
    ensures { Put out.old at (moment dated.now timed.now t) out.new result }
{
    let d = date_text(t);
    let next = put_field(out, at, dated, &d);
    let h = time_text(t);
    put_field(out, next, timed, &h)
}

fn put_count(out: &mut [u8], at: usize, name: &[u8], n: u32) -> usize
    requires { at + (length name.now + 23) ≤ length out.old }
    ensures { Put out.old at (written name.now (numeral n)) out.new result }
{
    let mut text = [0u8; 10];
    let k = put_decimal(&mut text, 0, n as u64);
    put_field(out, at, name, &text[..k])
}

fn put_record(out: &mut [u8], call: &[u8], on: u64, off: u64, acked: u32) -> usize
    requires { (length call.now ≤ 12) × (256 ≤ length out.old) }
    ensures { Put out.old 0 (record_of call.now on off acked) out.new result }
{
    let a = put_field(out, 0, b"CALL", call);
    let b = put_moment(out, a, b"QSO_DATE", b"TIME_ON", on);
    let c = put_moment(out, b, b"QSO_DATE_OFF", b"TIME_OFF", off);
    let d = put_count(out, c, b"APP_STATION_ACKED", acked);
    put_all(out, d, b"<EOR>")
}

fn sign_char(c: u8) -> bool
    ensures { result ≡ sign_char c }
{
    matches!(c, b'/' | b'0'..=b'9' | b'A'..=b'Z')
}

fn sign_ok(call: &[u8]) -> bool
    ensures { result ≡ sign_ok call.now }
{
    if call.is_empty() || 12 < call.len() {
        return false;
    }
    call.iter().all(|c| sign_char(*c))
}

// The refusals in their order.
fn check(call: &[u8], on: u64, off: u64, room: usize) -> Result<(), Refusal>
    ensures { told result ≡ refusal_of call.now on off room }
{
    if !sign_ok(call) {
        return Err(Refusal::CallSign);
    }
    if LAST_SECOND < on || LAST_SECOND < off || off < on {
        return Err(Refusal::Times);
    }
    if room < 256 {
        return Err(Refusal::ShortOutput);
    }
    Ok(())
}

// The number of characters written.
fn try_log(call: &[u8], on: u64, off: u64, acked: u32, out: &mut [u8]) -> Result<usize, Refusal>
    ensures { (answer_of result, out.new) ≡ log_of call.now on off acked out.old }
{
    check(call, on, off, out.len())?;
    Ok(put_record(out, call, on, off, acked))
}

// Writes the record of a link with `call`, from the second `on` to the second `off`, in which `acked` bytes were acknowledged.
// What lies past the record is kept; a refused call changes nothing.
pub fn log_link(call: &[u8], on: u64, off: u64, acked: u32, out: &mut [u8]) -> Logged
    ensures { (result, out.new) ≡ log_of call.now on off acked out.old }
{
    match try_log(call, on, off, acked, out) {
        Ok(len) => Logged { refusal: 0, len },
        Err(refusal) => Logged {
            refusal: refusal.number(),
            len: 0,
        },
    }
}
