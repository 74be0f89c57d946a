// Station settings on a card: a profile as a file, and a file as a profile (document 02, Change 3).
#![tactic(auto)]

mod reading;
mod rows;
mod writing;

ghost use Rattle.std.specs.Prelude.{◌≡◌, false};
ghost use Rattle.card.specs.Card.{number_of, told, answered, read_of, write_of};

use config::Profile;
use config::ranges::{in_order, in_range};

// Bytes of a file of version 1.
pub const CARD_BYTES: usize = 751;

// Why a file or a profile is refused: a value out of its range, frame sizes out of order, a version that there is none of, a file or an
// output of another length than its counts or the file ask, harq_stretch on in a later version.
#[derive(Clone, Copy, Debug, PartialEq, Eq)]
pub enum Refusal {
    OutOfRange,
    ShortOverLong,
    BadVersion,
    BadLength,
    HarqStretch,
}

impl Refusal {
    // The papers' number.
    pub fn number(self) -> u8
        ensures { result ≡ number_of self }
    {
        match self {
            Refusal::OutOfRange => 1,
            Refusal::ShortOverLong => 2,
            Refusal::BadVersion => 13,
            Refusal::BadLength => 14,
            Refusal::HarqStretch => 18,
        }
    }
}

// What a file that is taken gives: the profile, and whether harq_stretch, which is retired, was on.
#[derive(Clone, Copy)]
pub struct Taken {
    pub profile: Profile,
    pub stretched: bool,
}

// What reading a file gives: 0 or the refusal's number; the profile, where it is refused the one handed in; and whether harq_stretch was on
// in a file that is taken.
// kept: the number beside the profile, as the C interface stores them: its edit refused_profile_stored needs both.
#[derive(Clone, Copy)]
pub struct Found {
    pub refusal: u8,
    pub profile: Profile,
    pub stretched: bool,
}

// The same without the profile. kept: C interface.
#[repr(C)]
#[derive(Clone, Copy)]
pub struct CardAnswer {
    pub refusal: u8,
    pub stretched: bool,
}

// A profile out of a file. One who has the profile `before` keeps it where the file is refused.
pub fn try_read(b: &[u8]) -> Result<Taken, Refusal>
    ensures { (before : _) → answered result before ≡ read_of b.now before }
{
    reading::check_file(b)?;
    let os = &b[609..CARD_BYTES];
    let profile = reading::profile(&b[3..411], &b[413..461], &b[463..607], os);
    reading::check_profile(b[0], os, profile)?;
    let stretched = reading::stretch_on(os);
    Ok(Taken { profile, stretched })
}

fn refused(refusal: Refusal, before: Profile) -> Found
    ensures { (result.refusal ≡ number_of refusal) × (result.profile ≡ before) × (result.stretched ≡ false) }
{
    Found {
        refusal: refusal.number(),
        profile: before,
        stretched: false,
    }
}

// The same with the refusal as its number.
// kept: the steps of try_read anew, since a Result that bears the profile took a third longer.
pub fn read(b: &[u8], before: Profile) -> Found
    ensures { (result.refusal, result.profile, result.stretched) ≡ read_of b.now before }
{
    if let Err(file) = reading::check_file(b) {
        return refused(file, before);
    }
    let os = &b[609..CARD_BYTES];
    let p = reading::profile(&b[3..411], &b[413..461], &b[463..607], os);
    if let Err(refusal) = reading::check_profile(b[0], os, p) {
        return refused(refusal, before);
    }
    Found {
        refusal: 0,
        profile: p,
        stretched: reading::stretch_on(os),
    }
}

// Writes a profile as a file of 751 bytes; what lies past them is kept.
pub fn try_write(p: Profile, out: &mut [u8]) -> Result<(), Refusal>
    ensures { (told result, out.new) ≡ write_of p out.old }
{
    if !in_range(p) {
        return Err(Refusal::OutOfRange);
    }
    if !in_order(p.short_bytes, p.long_bytes) {
        return Err(Refusal::ShortOverLong);
    }
    if out.len() < CARD_BYTES {
        return Err(Refusal::BadLength);
    }
    writing::put_card(out, p);
    Ok(())
}

// The same with the refusal as its number, or 0.
pub fn write(p: Profile, out: &mut [u8]) -> u8
    ensures { (result, out.new) ≡ write_of p out.old }
{
    match try_write(p, out) {
        Ok(()) => 0,
        Err(refusal) => refusal.number(),
    }
}
