// Held numbers: what the far station holds of a piece in bits, and what is sent of it next (harq.rs, from document 01, module 2).
#![tactic(auto)]

ghost use Rattle.std.specs.Prelude.{◌≡◌, ◌≤◌, ◌<◌};
ghost use Rattle.limits.specs.Limits.{max_slots, max_bits};
ghost use Rattle.harq.specs.Held.{increment_of, start_of, h_max, partial_field, check_bits, burst_check_bits};
ghost use Rattle.harq.specs.HeldCode.{nearer as nearer_of};

use limits::PARTIAL_MAX;

// The mother code's length, and where the six code rates end.
#[repr(C)]
#[derive(Clone, Copy)]
pub struct Harq {
    pub mother: u32,
    pub ends: [u32; 6],
}

// The nearer of two ends above h; 0 stands for none.
fn nearer(best: u32, h: u32, e: u32) -> u32
    ensures { result ≡ nearer_of best h e }
{
    if (h < e) & ((best == 0) | (e < best)) {
        return e;
    }
    best
}

impl Harq {
    // The bits to send next of a piece of which h are held.
    pub fn increment(self, h: u32, slot: u32) -> u32
        ensures { result ≡ increment_of self h slot }
    {
        let mut best: u32 = 0;
        for &e in &self.ends {
            best = nearer(best, h, e);
        }
        if best == 0 {
            return slot;
        }
        best - h
    }

    // Where the increment starts in the mother code.
    pub fn start(self, h: u32) -> u32
        requires { 1 ≤ self.mother }
        ensures { result ≡ start_of self h }
    {
        h % self.mother
    }

    // H_MAX: a piece is held only while its bits are below this.
    pub fn h_max(self) -> u32
        requires { self.mother ≤ max_bits }
        ensures { result ≡ h_max self }
    {
        2 * self.mother
    }
}

// How many of the stored pieces' increments a burst has: 0 for all of them, else one more than their number, up to 63.
pub fn partial_field(parity: usize, stored: usize) -> u16
    ensures { result ≡ partial_field parity stored }
{
    if parity == stored {
        return 0;
    }
    if parity < PARTIAL_MAX {
        return parity as u16 + 1;
    }
    PARTIAL_MAX as u16 + 1
}

// Check bits for n.
fn check_bits(n: usize) -> u8
    ensures { result ≡ check_bits n }
{
    if n == 0 {
        return 0;
    }
    1 + (n % 3) as u8
}

// Two bits by which the far station sees whether both count alike.
pub fn burst_check_bits(stored: usize, field: u16) -> u8
    requires { stored ≤ max_slots }
    ensures { result ≡ burst_check_bits stored field }
{
    if field == 0 {
        return check_bits(stored);
    }
    check_bits(stored + 1)
}
