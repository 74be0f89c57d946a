// The plan of data_burst (sender.rs): how many held pieces go as increments, and how many whole pieces.
#![tactic(auto)]

ghost use Rattle.std.specs.Prelude.{◌≡◌, ◌≤◌, length};
ghost use Rattle.plan.specs.Planning.{fits};
ghost use Rattle.limits.specs.Limits.{max_slots, max_bits, max_burst_bits};
ghost use Rattle.plan.specs.PlanningCode.{AirRange, CodesRange, parity_bits_of, cap_of, too_big_for, popped_from, parity_of};
ghost use Rattle.plan.specs.PlanningCode.{most_of, fits_with, room_counted, planned};

use harq::Harq;
use limits::{MAX_SLOTS, PARTIAL_MAX, TINY_ACK_FRAMES};

// What the gear, the level and the profile say of the next burst: seconds on the air are pre_s + bits / rate + cue_s.
#[derive(Clone, Copy)]
pub struct Choice {
    pub long: bool,
    // The level's wave is the one that the held pieces were stored from.
    pub same_wave: bool,
    // A cue goes, with harq_partial.
    pub partial: bool,
    pub slot: u32,
    pub pre_s: f64,
    pub rate: f64,
    // 0 without a cue.
    pub cue_s: f64,
    pub max_s: f64,
    pub max_bits: u32,
}

// parity.len(), parity_bits, stored and room.
#[derive(Clone, Copy)]
pub struct Planned {
    pub parity: usize,
    pub parity_bits: u32,
    pub stored: usize,
    pub room: usize,
}

impl Choice {
    // cap
    fn cap(self) -> usize
        ensures { (result ≡ cap_of self) × (result ≤ max_slots) }
    {
        if self.long {
            return MAX_SLOTS;
        }
        TINY_ACK_FRAMES
    }

    // data_s(level, bits, cue) <= max_s
    fn fits(self, bits: u32) -> bool
        ensures { result ≡ fits self bits }
    {
        float::gear::data_s(self.pre_s, self.rate, bits as u64, self.cue_s) <= self.max_s
    }

    // too_big
    fn too_big(self, n: usize, bits: u32) -> bool
        ensures { result ≡ too_big_for self n bits }
    {
        (self.cap() < n) | ((0 < n) & !self.fits(bits))
    }
}

// parity_bits: the bits of all increments.
fn parity_bits(q: Harq, c: Choice, bits: &[u32]) -> u32
    requires { CodesRange q c × (length bits.now ≤ max_slots) }
    ensures { (result ≡ parity_bits_of q c bits.now) × (result ≤ max_burst_bits) }
{
    let slot = c.slot;
    let mut sum: u32 = 0;
    for &held in bits {
        sum = sum + q.increment(held, slot);
    }
    sum
}

// Increments that do not fit are left out, from the back.
fn pop(q: Harq, c: Choice, bits: &[u32]) -> usize
    requires { CodesRange q c × (length bits.now ≤ max_slots) }
    ensures { result ≡ popped_from q c bits.now (length bits.now) }
{
    let slot = c.slot;
    let mut sum = parity_bits(q, c, bits);
    for n in (1..=bits.len()).rev() {
        if !((PARTIAL_MAX < n) | c.too_big(n, sum)) {
            return n;
        }
        sum = sum - q.increment(bits[n - 1], slot);
    }
    0
}

// How many increments go: all where they fit, else behind a cue with harq_partial those that fit, else none.
fn parity(q: Harq, c: Choice, bits: &[u32]) -> usize
    requires { CodesRange q c × (length bits.now ≤ max_slots) }
    ensures { (result ≡ parity_of q c bits.now) × (result ≤ length bits.now) }
{
    if !(c.long & c.same_wave) {
        return 0;
    }
    let n = bits.len();
    let sum = parity_bits(q, c, bits);
    if !c.too_big(n, sum) {
        return n;
    }
    if c.partial {
        return pop(q, c, bits);
    }
    0
}

// How many whole pieces n increments and `stored` held pieces leave slots for.
fn most(c: Choice, n: usize, stored: usize) -> usize
    requires { stored ≤ max_slots }
    ensures { (result ≡ most_of c n stored) × (result ≤ max_slots) }
{
    c.cap().saturating_sub(n).min(MAX_SLOTS - stored)
}

// Whether r whole pieces fit beside increments of `bits` bits.
fn fits_with(c: Choice, bits: u32, r: usize) -> bool
    requires { (c.slot ≤ max_bits) × (bits ≤ max_burst_bits) × (r ≤ max_slots) }
    ensures { result ≡ fits_with c bits r }
{
    let t = bits + r as u32 * c.slot;
    c.fits(t) & (t <= c.max_bits)
}

// room, before at least one piece goes: from the most slots down to the first that fits.
fn room(c: Choice, n: usize, stored: usize, bits: u32) -> usize
    requires { AirRange c × (c.slot ≤ max_bits) × (stored ≤ max_slots) × (bits ≤ max_burst_bits) }
    ensures { (result ≡ room_counted c n stored bits max_slots 0) × (result ≤ max_slots) }
{
    let most = most(c, n, stored);
    for r in (1..=most).rev() {
        if fits_with(c, bits, r) {
            return r;
        }
    }
    0
}

// The plan of a burst, where the peer holds `bits` of each held piece.
pub fn plan(q: Harq, c: Choice, bits: &[u32]) -> Planned
    requires { CodesRange q c × (length bits.now ≤ max_slots) }
    ensures { result ≡ planned q c bits.now }
{
    let n = parity(q, c, bits);
    if n == 0 {
        let at_least = room(c, 0, 0, 0).max(1);
        return Planned {
            parity: 0,
            parity_bits: 0,
            stored: 0,
            room: at_least,
        };
    }
    let sum = parity_bits(q, c, &bits[..n]);
    let stored = bits.len();
    let r = room(c, n, stored, sum);
    Planned {
        parity: n,
        parity_bits: sum,
        stored,
        room: r,
    }
}
