// A profile out of the four sections of a file, and what is wrong with the file.
ghost use Rattle.std.specs.Prelude.{◌≡◌, ◌+◌, ◌≤◌, ◌<◌, eqb, length, get_or};
ghost use Rattle.card.specs.Card.{at as value_at, card_flag, option_at, pin_in, air_in, marks_in, codes_in, lengths_in, holds_in, profile_in};
ghost use Rattle.card.specs.Card.{told, version_bad, options_ok, counts_agree, file_refusal, places_ok, stretch_place, stretch_later, content_refusal};

use crate::rows::{Placed, row};
use crate::{CARD_BYTES, Refusal};
use byte_copy::Little;
use config::ranges::{in_order, in_range};
use config::{Air, HoldTimes, Lengths, Marks, MaybeDb, MaybeLevel, Profile};
use harq::Harq;

fn flag(os: &[u8], i: usize) -> bool
    requires { 127 + i < length os.now }
    ensures { result ≡ card_flag os.now i }
{
    os[127 + i] == 1
}

fn maybe_db(os: &[u8], i: usize, at: usize) -> MaybeDb
    requires { (127 + i < length os.now) × (at + 4 ≤ length os.now) }
    ensures { result ≡ option_at os.now i at }
{
    MaybeDb {
        set: flag(os, i),
        db: f32::read(os, at),
    }
}

fn pin(os: &[u8]) -> MaybeLevel
    requires { 142 ≤ length os.now }
    ensures { result ≡ pin_in os.now }
{
    MaybeLevel {
        set: flag(os, 2),
        level: u64::load(os, 119) as usize,
    }
}

fn air(ls: &[u8], ws: &[u8], os: &[u8]) -> Air
    requires { (408 ≤ length ls.now) × ((48 ≤ length ws.now) × (142 ≤ length os.now)) }
    ensures { result ≡ air_in ls.now ws.now os.now }
{
    Air {
        slot_bits: row(ls, 0),
        pre_s: row(ls, 68),
        rate: row(ls, 204),
        max_bits: row(ls, 340),
        ack_s: row(ws, 0),
        cue_s: f64::read(os, 0),
    }
}

fn marks(ts: &[u8], i: usize) -> Marks
    requires { i + 72 ≤ length ts.now }
    ensures { result ≡ marks_in ts.now i }
{
    Marks {
        thresholds_db: row(ts, i),
        margin_db: f32::read(ts, i + 68),
    }
}

fn codes(os: &[u8]) -> Harq
    requires { 142 ≤ length os.now }
    ensures { result ≡ codes_in os.now }
{
    Harq {
        mother: u32::read(os, 72),
        ends: row(os, 76),
    }
}

fn lengths(os: &[u8]) -> Lengths
    requires { 142 ≤ length os.now }
    ensures { result ≡ lengths_in os.now }
{
    Lengths {
        max_burst_s: f64::read(os, 8),
        max_burst_long_s: f64::read(os, 16),
        burst_overhead: f64::read(os, 24),
        turnaround_s: f64::read(os, 32),
        burst_adapt: flag(os, 3),
        burst_steady_db: f32::read(os, 100),
        burst_climb_db: maybe_db(os, 0, 104),
    }
}

fn hold_times(os: &[u8]) -> HoldTimes
    requires { 142 ≤ length os.now }
    ensures { result ≡ holds_in os.now }
{
    HoldTimes {
        fail_hold_s: f64::read(os, 40),
        fail_hold_max_s: f64::read(os, 48),
        loss_hold_s: f64::read(os, 56),
    }
}

pub(crate) fn profile(ls: &[u8], ws: &[u8], ts: &[u8], os: &[u8]) -> Profile
    requires { ((408 ≤ length ls.now) × (48 ≤ length ws.now)) × ((144 ≤ length ts.now) × (142 ≤ length os.now)) }
    ensures { result ≡ profile_in ls.now ws.now ts.now os.now }
{
    Profile {
        air: air(ls, ws, os),
        short_bytes: u32::read(os, 64),
        long_bytes: u32::read(os, 68),
        codes: codes(os),
        lengths: lengths(os),
        hold_times: hold_times(os),
        plain: marks(ts, 0),
        eff: marks(ts, 72),
        eff_snr: flag(os, 4),
        cue_below_db: f32::read(os, 108),
        start_margin_db: maybe_db(os, 1, 112),
        max_level: os[116] as usize,
        skip_slices_from: os[117] as usize,
        pin_level: pin(os),
        goodput: flag(os, 5),
        power: os[118],
        harq: flag(os, 6),
        pick_family: flag(os, 7),
        smooth_target: flag(os, 8),
        hold_by_goodput: flag(os, 9),
        slice_slots: flag(os, 10),
        merge_pieces: flag(os, 11),
        cue: flag(os, 12),
        harq_partial: flag(os, 13),
    }
}

fn version_bad(b: &[u8]) -> bool
    ensures { result ≡ version_bad b.now }
{
    if b.len() == 0 {
        return false;
    }
    (b[0] == 0) | (15 < b[0])
}

fn options_ok(version: u8, n: usize) -> bool
    ensures { result ≡ options_ok version n }
{
    if version == 1 {
        return n == 142;
    }
    142 <= n
}

fn count(b: &[u8], at: usize) -> usize
    requires { at + 2 ≤ length b.now }
    ensures { (result ≡ value_at 2 b.now at) × (result < 65536) }
{
    u16::load(b, at) as usize
}

fn counts_ok(b: &[u8]) -> bool
    ensures { result ≡ counts_agree b.now }
{
    if b.len() < CARD_BYTES {
        return false;
    }
    let n = count(b, 607);
    let last = options_ok(b[0], n) & (b.len() == 609 + n);
    (count(b, 1) == 408) & ((count(b, 411) == 48) & ((count(b, 461) == 144) & last))
}

// A file that passes has all four sections.
pub(crate) fn check_file(b: &[u8]) -> Result<(), Refusal>
    ensures { (told result ≡ file_refusal b.now) × (told result ≡ 0 → 751 ≤ length b.now) }
{
    if version_bad(b) {
        return Err(Refusal::BadVersion);
    }
    if !counts_ok(b) {
        return Err(Refusal::BadLength);
    }
    Ok(())
}

fn places_ok(os: &[u8]) -> bool
    requires { 142 ≤ length os.now }
    ensures { result ≡ places_ok os.now }
{
    os[127..142].iter().all(|place| *place <= 1)
}

// Whether harq_stretch is on.
pub(crate) fn stretch_on(os: &[u8]) -> bool
    requires { 142 ≤ length os.now }
    ensures { result ≡ eqb (stretch_place os.now) 1 }
{
    os[141] == 1
}

fn stretch_later(version: u8, os: &[u8]) -> bool
    requires { 142 ≤ length os.now }
    ensures { result ≡ stretch_later version os.now }
{
    (1 < version) & (os[141] != 0)
}

pub(crate) fn check_profile(version: u8, os: &[u8], p: Profile) -> Result<(), Refusal>
    requires { 142 ≤ length os.now }
    ensures { told result ≡ content_refusal version os.now p }
{
    if stretch_later(version, os) {
        return Err(Refusal::HarqStretch);
    }
    if !places_ok(os) {
        return Err(Refusal::OutOfRange);
    }
    if !in_range(p) {
        return Err(Refusal::OutOfRange);
    }
    if !in_order(p.short_bytes, p.long_bytes) {
        return Err(Refusal::ShortOverLong);
    }
    Ok(())
}
