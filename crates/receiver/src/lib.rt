// The receiving end: keeps what a burst's frames bring, hands the stream on in order, and answers by a long ack.
#![tactic(auto)]

ghost use Rattle.std.specs.Prelude.{◌≡◌, ◌+◌, ◌^◌, ◌≤◌, ◌<◌, min, length};
ghost use Rattle.frame.specs.Table.{table_of};
ghost use Rattle.receiver.specs.Frames.{box_bytes, offsets, off_of, sum_ok, head_ok, frame_ok};
ghost use Rattle.receiver.specs.Taking.{none_taken, left_out, too_far, took_slot, take_one, all_taken, slotted};
ghost use Rattle.receiver.specs.TakingCode.{InBounds};
ghost use Rattle.receiver.specs.Receiving.{empty_from, receiver_sound, receive_refusal, ack_bytes, no_answer, accepted, reception_of, fresh_receiver};

use byte_copy::Little;
use frame::crc::{crc32_by, table};
use window::{copy_out, keep_from, move_on};

// The places of the window, and the offsets that a frame's 24 bits can name.
const PLACES: usize = 32768;

const OFFSETS: u32 = 16777216;

// The window is lent: 32,768 places of the crate `window`.
#[repr(C)]
#[derive(Clone, Copy)]
pub struct Receiver {
    pub first_missing: u32,
}

// What a call answers: the refusal, or 0; the payload of the long ack; how many bytes it handed on; the frames left out under 16 and 17.
// kept: the refusal as a number: C interface.
#[repr(C)]
#[derive(Clone, Copy)]
pub struct Received {
    pub refusal: u8,
    pub payload: [u8; 13],
    pub handed: u32,
    pub wrong: usize,
    pub beyond: usize,
}

#[derive(Clone, Copy)]
pub struct Listened {
    pub answer: Received,
    pub next: Receiver,
}

// So far: the lowest slot number that may come, the bitmap, and the frames left out under 16 and 17.
#[derive(Clone, Copy)]
pub struct Taking {
    pub least: u8,
    pub bitmap: u64,
    pub wrong: usize,
    pub beyond: usize,
}

// The offset of a frame.
fn offset(f: &[u8]) -> u32
    requires { 5 ≤ length f.now }
    ensures { (result ≡ off_of f.now) × (result < 16777216) }
{
    u32::from(f[2]) + 256 * (u32::from(f[3]) + 256 * u32::from(f[4]))
}

// Size, kind and length byte.
fn head_ok(f: &[u8]) -> bool
    ensures { result ≡ head_ok f.now }
{
    let n = f.len();
    if n < 18 {
        return false;
    }
    let len = usize::from(f[5]);
    (n <= 512) & ((f[0] == 3) & ((1 <= len) & ((len <= 254) & (len + 10 <= n))))
}

// The check sum, in the last four bytes.
fn sum_ok(t: &[u32; 256], f: &[u8]) -> bool
    requires { (t.now ≡ table_of) × (4 ≤ length f.now) }
    ensures { result ≡ sum_ok f.now }
{
    let end = f.len() - 4;
    let sum = crc32_by(t, &f[..end]);
    sum == u32::load(f, end)
}

// The cheap tests come before the check sum.
fn frame_ok(t: &[u32; 256], f: &[u8]) -> bool
    requires { t.now ≡ table_of }
    ensures { result ≡ frame_ok f.now }
{
    if head_ok(f) { sum_ok(t, f) } else { false }
}

fn begin() -> Taking
    ensures { result ≡ none_taken }
{
    Taking {
        least: 0,
        bitmap: 0,
        wrong: 0,
        beyond: 0,
    }
}

fn left_out(k: Taking) -> Taking
    requires { k.wrong < 18446744073709551615 }
    ensures { result ≡ left_out k }
{
    Taking {
        wrong: k.wrong + 1,
        ..k
    }
}

fn too_far(k: Taking) -> Taking
    requires { k.beyond < 18446744073709551615 }
    ensures { result ≡ too_far k }
{
    Taking {
        beyond: k.beyond + 1,
        ..k
    }
}

fn took_slot(k: Taking, s: u8) -> Taking
    requires { (k.bitmap < 2 ^ s) × (s < 64) }
    ensures { result ≡ took_slot k s }
{
    Taking {
        least: s + 1,
        bitmap: k.bitmap + (1u64 << s),
        ..k
    }
}

// One frame: left out under 16 or 17, or taken.
fn take_one(t: &[u32; 256], w: &mut [u16], first: u32, slot: u8, f: &[u8], k: Taking) -> Taking
    requires { (t.now ≡ table_of) × (length w.old ≡ box_bytes) × (first ≤ offsets) × InBounds k 18446744073709551614 }
    ensures { (result, w.new) ≡ take_one first (record { slot = slot; frame = f.now }) (k, w.old) }
{
    if slot < k.least {
        return left_out(k);
    }
    if 63 < slot {
        return left_out(k);
    }
    if frame_ok(t, f) {
        let off = offset(f);
        let len = u32::from(f[5]);
        if first + 32768 < off + len {
            return too_far(k);
        }
        if OFFSETS < off + len {
            return too_far(k);
        }
        let end = 6 + len as usize;
        keep_from(w, first, off, &f[6..end]);
        took_slot(k, slot)
    } else {
        left_out(k)
    }
}

// All frames of a burst: as many as the shorter list has. A frame ends where the bytes do at the latest.
fn take_all(
    t: &[u32; 256],
    w: &mut [u16],
    first: u32,
    bytes: &[u8],
    sizes: &[u16],
    slots: &[u8],
) -> Taking
    requires { (t.now ≡ table_of) × (length w.old ≡ box_bytes) × (first ≤ offsets) }
    ensures { (result, w.new) ≡ all_taken first (slotted bytes.now sizes.now slots.now) (none_taken, w.old) }
{
    let n = sizes.len().min(slots.len());
    let all = bytes.len();
    let mut k = begin();
    let mut at: usize = 0;
    for i in 0..n {
        let end = at.saturating_add(usize::from(sizes[i])).min(all);
        k = take_one(t, w, first, slots[i], &bytes[at..end], k);
        at = end;
    }
    k
}

// Nothing is kept from place `from` on.
fn empty_from(w: &[u16], from: usize) -> bool
    requires { box_bytes ≤ length w.now }
    ensures { result ≡ empty_from w.now from }
{
    for i in from..PLACES {
        if 256 <= w[i] {
            return false;
        }
    }
    true
}

// Refusal 3 where false.
fn is_sound(r: Receiver, w: &[u16]) -> bool
    ensures { result ≡ receiver_sound r w.now }
{
    let first = r.first_missing;
    if w.len() < PLACES {
        return false;
    }
    if OFFSETS < first {
        return false;
    }
    if 256 <= w[0] {
        return false;
    }
    let from = (OFFSETS - first) as usize;
    empty_from(w, from)
}

// 3, 6 and 10, in this order; 0 where the call is accepted. `out` is how many bytes the output has.
fn refusal(r: Receiver, w: &[u16], number: u8, out: usize) -> u8
    ensures { result ≡ receive_refusal r w.now number out }
{
    if is_sound(r, w) {
        if 3 < number {
            return 6;
        }
        if out < PLACES { 10 } else { 0 }
    } else {
        3
    }
}

// The payload of the long ack.
fn ack_bytes(number: u8, bitmap: u64, db: u8, count: u32) -> [u8; 13]
    ensures { result ≡ ack_bytes number bitmap db count }
{
    [
        number,
        (bitmap % 256) as u8,
        (bitmap / 256 % 256) as u8,
        (bitmap / 256 / 256 % 256) as u8,
        (bitmap / 256 / 256 / 256 % 256) as u8,
        (bitmap / 256 / 256 / 256 / 256 % 256) as u8,
        (bitmap / 256 / 256 / 256 / 256 / 256 % 256) as u8,
        (bitmap / 256 / 256 / 256 / 256 / 256 / 256 % 256) as u8,
        (bitmap / 256 / 256 / 256 / 256 / 256 / 256 / 256 % 256) as u8,
        db,
        (count % 256) as u8,
        (count / 256 % 256) as u8,
        (count / 256 / 256 % 256) as u8,
    ]
}

fn refused(r: Receiver, n: u8) -> Listened
    ensures { result ≡ record { answer = no_answer n; next = r } }
{
    let none = [0; 13];
    let answer = Received {
        refusal: n,
        payload: none,
        handed: 0,
        wrong: 0,
        beyond: 0,
    };
    Listened {
        answer: answer,
        next: r,
    }
}

// An accepted call, with the 32,768 places.
fn receive(
    r: Receiver,
    w: &mut [u16],
    number: u8,
    bytes: &[u8],
    sizes: &[u16],
    slots: &[u8],
    db: u8,
    out: &mut [u8],
) -> Listened
    requires { (length w.old ≡ box_bytes) × (box_bytes ≤ length out.old) × (r.first_missing ≤ offsets) }
    ensures { (result, (w.new, out.new)) ≡ accepted r w.old number bytes.now sizes.now slots.now db out.old }
{
    let first = r.first_missing;
    let t = table();
    let k = take_all(&t, w, first, bytes, sizes, slots);
    let n = copy_out(w, out);
    move_on(w, n);
    let count = first + n as u32;
    let payload = ack_bytes(number, k.bitmap, db, count);
    let answer = Received {
        refusal: 0,
        payload: payload,
        handed: n as u32,
        wrong: k.wrong,
        beyond: k.beyond,
    };
    let next = Receiver {
        first_missing: count,
    };
    Listened {
        answer: answer,
        next: next,
    }
}

// A burst's number, its frames back to back in `bytes`, of the lengths `sizes` and with the slot numbers `slots`, and the dB byte to answer. Where the call is
// refused, no byte that was lent has changed.
pub fn receiver_rx(
    r: Receiver,
    w: &mut [u16],
    number: u8,
    bytes: &[u8],
    sizes: &[u16],
    slots: &[u8],
    db: u8,
    out: &mut [u8],
) -> Listened
    ensures { (result, (w.new, out.new)) ≡ reception_of r w.old number bytes.now sizes.now slots.now db out.old }
{
    let n = refusal(r, w, number, out.len());
    if n == 0 {
        receive(r, &mut w[..PLACES], number, bytes, sizes, slots, db, out)
    } else {
        refused(r, n)
    }
}

// A new receiver; its window is all zeros.
pub fn fresh() -> Receiver
    ensures { result ≡ fresh_receiver }
{
    Receiver { first_missing: 0 }
}
