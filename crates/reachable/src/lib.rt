// The levels that `level_for` can choose for a report known only within a range (document 02, Change 12).
#![tactic(auto)]

ghost use Rattle.std.specs.Prelude.{◌≡◌, [], map, ◌<◌, ◌≤◌, get_or};
ghost use Rattle.laws.specs.Span.{upto};
ghost use Rattle.reachable.specs.Reachable.{chosen_by, lowest_of, given, reachable, listing};
ghost use Rattle.reachable.specs.Reachable.{number_of, order_refusal, range_refusal, profile_refusal, listing_by, listing_under};
ghost use Rattle.reachable.specs.ReachableCode.{told};

use config::ranges::{in_order, in_range, marks_ok};
use config::{Marks, Profile};
use gear::goodput::marks;
use levels::reach::level_for;
use levels::usable::heeded;
use report::{ChanClass, snr_from_q};

// Why nothing is listed: a value out of its range, frame sizes out of order, a lowest q above the highest.
#[derive(Clone, Copy, Debug, PartialEq, Eq)]
pub enum Refusal {
    OutOfRange,
    ShortOverLong,
    LowOverHigh,
}

impl Refusal {
    // The papers' number.
    pub fn number(self) -> u8
        ensures { result ≡ number_of self }
    {
        match self {
            Refusal::OutOfRange => 1,
            Refusal::ShortOverLong => 2,
            Refusal::LowOverHigh => 19,
        }
    }
}

// The answer: 0 and n levels, each once, ascending, with the lowest q that gives it; or the refusal and no level. The places behind are 0.
// kept: the refusal as a number, and a count beside two arrays: C interface.
#[repr(C)]
#[derive(Clone, Copy)]
pub struct Listing {
    pub refusal: u8,
    pub n: usize,
    pub level: [u8; 17],
    pub q: [u8; 17],
}

// No byte: what stands for a level that no q gives.
// kept: a number and no Option, as the definition of the lowest q has it.
const NO_Q: u16 = 256;

// For each level the lowest q that gives it: the range is gone through downwards, so that the last q noted is the lowest.
fn lowest_q(marks: Marks, power: u8, class: ChanClass, top: usize, low: u8, high: u8) -> [u16; 17]
    requires { (top < 17) × (low ≤ high) }
    ensures { result ≡ map (lowest_of (chosen_by marks power class top) low high) (upto 0 17) }
{
    let mut lowest: [u16; 17] = [NO_Q; 17];
    let start = low as u16;
    let end = high as u16 + 1;
    for q in (start..end).rev() {
        let l = level_for(marks, power, class, top, snr_from_q(q as u8));
        lowest[l] = q;
    }
    lowest
}

// The levels that have a lowest q, ascending.
fn list(lowest: [u16; 17]) -> Listing
    ensures { result ≡ listing 0 (given (λ l. get_or lowest l 0) (upto 0 17)) }
{
    let mut level: [u8; 17] = [0; 17];
    let mut q: [u8; 17] = [0; 17];
    let mut n: usize = 0;
    for l in 0..17 {
        let k = lowest[l];
        if k < NO_Q {
            level[n] = l as u8;
            q[n] = k as u8;
            n += 1;
        }
    }
    Listing {
        refusal: 0,
        n,
        level,
        q,
    }
}

fn listed(marks: Marks, power: u8, class: ChanClass, top: usize, low: u8, high: u8) -> Listing
    requires { (top < 17) × (low ≤ high) }
    ensures { result ≡ listing 0 (reachable (chosen_by marks power class top) low high) }
{
    list(lowest_q(marks, power, class, top, low, high))
}

fn refused(refusal: Refusal) -> Listing
    ensures { result ≡ listing (number_of refusal) [] }
{
    Listing {
        refusal: refusal.number(),
        n: 0,
        level: [0; 17],
        q: [0; 17],
    }
}

fn check_order(low: u8, high: u8) -> Result<(), Refusal>
    ensures { told result ≡ order_refusal low high }
{
    if high < low {
        return Err(Refusal::LowOverHigh);
    }
    Ok(())
}

fn check_range(marks: Marks, power: u8, top: usize, low: u8, high: u8) -> Result<(), Refusal>
    ensures { told result ≡ range_refusal marks power top low high }
{
    if !marks_ok(marks) || 2 < power || 16 < top {
        return Err(Refusal::OutOfRange);
    }
    check_order(low, high)
}

fn check_profile(cfg: Profile, low: u8, high: u8) -> Result<(), Refusal>
    ensures { told result ≡ profile_refusal cfg low high }
{
    if !in_range(cfg) {
        return Err(Refusal::OutOfRange);
    }
    if !in_order(cfg.short_bytes, cfg.long_bytes) {
        return Err(Refusal::ShortOverLong);
    }
    check_order(low, high)
}

// On what `level_for` takes, the class as it is: refused by 1, then 19.
pub fn levels_by(
    marks: Marks,
    power: u8,
    class: ChanClass,
    top: usize,
    low: u8,
    high: u8,
) -> Listing
    ensures { result ≡ listing_by marks power class top low high }
{
    match check_range(marks, power, top, low, high) {
        Ok(()) => listed(marks, power, class, top, low, high),
        Err(refusal) => refused(refusal),
    }
}

// On a whole profile, as a sender under it would choose: refused by 1, 2, then 19.
pub fn levels_under(cfg: Profile, class: ChanClass, low: u8, high: u8) -> Listing
    ensures { result ≡ listing_under cfg class low high }
{
    match check_profile(cfg, low, high) {
        Ok(()) => {
            let heard = heeded(class, cfg.pick_family);
            listed(marks(cfg), cfg.power, heard, cfg.max_level, low, high)
        }
        Err(refusal) => refused(refusal),
    }
}
