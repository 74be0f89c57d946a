// The four sections of a profile's file, each after its count of bytes.
ghost use Rattle.std.specs.Prelude.{[], ◌∷◌, map, ◌+◌, ◌≤◌, length};
ghost use Rattle.card.specs.Card.{bits32, bits64, flag_byte, packed, section, levels_of, waves_of, marks_bytes, thresholds_of, doubles, singles};
ghost use Rattle.card.specs.Card.{smalls_of, on_off_places, options_of, card_of};
ghost use Rattle.card.specs.CardCode.{Puts};

use crate::rows::{Placed, put_row};
use byte_copy::Little;
use config::{Air, Marks, Profile};
use harq::Harq;

fn put_version(out: &mut [u8])
    requires { 1 ≤ length out.old }
    ensures { Puts out.old out.new 0 (1 ∷ []) 1 }
{
    out[0] = 1;
}

fn put_levels(out: &mut [u8], a: Air)
    requires { 411 ≤ length out.old }
    ensures { Puts out.old out.new 1 (section (levels_of a)) 410 }
{
    u16::store(out, 1, 408);
    put_row(out, 3, &a.slot_bits);
    put_row(out, 71, &a.pre_s);
    put_row(out, 207, &a.rate);
    put_row(out, 343, &a.max_bits);
}

fn put_waves(out: &mut [u8], a: Air)
    requires { 461 ≤ length out.old }
    ensures { Puts out.old out.new 411 (section (waves_of a)) 50 }
{
    u16::store(out, 411, 48);
    put_row(out, 413, &a.ack_s);
}

fn put_marks(out: &mut [u8], at: usize, m: Marks)
    requires { at + 72 ≤ length out.old }
    ensures { Puts out.old out.new at (marks_bytes m) 72 }
{
    put_row(out, at, &m.thresholds_db);
    m.margin_db.put(out, at + 68);
}

fn put_thresholds(out: &mut [u8], p: Profile)
    requires { 607 ≤ length out.old }
    ensures { Puts out.old out.new 461 (section (thresholds_of p)) 146 }
{
    u16::store(out, 461, 144);
    put_marks(out, 463, p.plain);
    put_marks(out, 535, p.eff);
}

fn put_doubles(out: &mut [u8], p: Profile)
    requires { 673 ≤ length out.old }
    ensures { Puts out.old out.new 609 (packed 8 (map bits64 (doubles p))) 64 }
{
    let x = [
        p.air.cue_s,
        p.lengths.max_burst_s,
        p.lengths.max_burst_long_s,
        p.lengths.burst_overhead,
        p.lengths.turnaround_s,
        p.hold_times.fail_hold_s,
        p.hold_times.fail_hold_max_s,
        p.hold_times.loss_hold_s,
    ];
    put_row(out, 609, &x);
}

fn put_wholes(out: &mut [u8], short: u32, long: u32, q: Harq)
    requires { 709 ≤ length out.old }
    ensures { Puts out.old out.new 673 (packed 4 (short ∷ long ∷ q.mother ∷ q.ends)) 36 }
{
    let x = [short, long, q.mother];
    put_row(out, 673, &x);
    put_row(out, 685, &q.ends);
}

fn put_singles(out: &mut [u8], p: Profile)
    requires { 725 ≤ length out.old }
    ensures { Puts out.old out.new 709 (packed 4 (map bits32 (singles p))) 16 }
{
    let x = [
        p.lengths.burst_steady_db,
        p.lengths.burst_climb_db.db,
        p.cue_below_db,
        p.start_margin_db.db,
    ];
    put_row(out, 709, &x);
}

fn put_smalls(out: &mut [u8], p: Profile)
    requires { (736 ≤ length out.old) × ((p.max_level ≤ 16) × (p.skip_slices_from ≤ 17)) }
    ensures { Puts out.old out.new 725 (smalls_of p) 11 }
{
    out[725] = p.max_level as u8;
    out[726] = p.skip_slices_from as u8;
    out[727] = p.power;
    u64::store(out, 728, p.pin_level.level as u64);
}

fn put_places(out: &mut [u8], p: Profile)
    requires { 751 ≤ length out.old }
    ensures { Puts out.old out.new 736 (map flag_byte (on_off_places p)) 15 }
{
    let x = [
        p.lengths.burst_climb_db.set,
        p.start_margin_db.set,
        p.pin_level.set,
        p.lengths.burst_adapt,
        p.eff_snr,
        p.goodput,
        p.harq,
        p.pick_family,
        p.smooth_target,
        p.hold_by_goodput,
        p.slice_slots,
        p.merge_pieces,
        p.cue,
        p.harq_partial,
        false,
    ];
    put_row(out, 736, &x);
}

fn put_options(out: &mut [u8], p: Profile)
    requires { (751 ≤ length out.old) × ((p.max_level ≤ 16) × (p.skip_slices_from ≤ 17)) }
    ensures { Puts out.old out.new 607 (section (options_of p)) 144 }
{
    u16::store(out, 607, 142);
    put_doubles(out, p);
    put_wholes(out, p.short_bytes, p.long_bytes, p.codes);
    put_singles(out, p);
    put_smalls(out, p);
    put_places(out, p);
}

// All of the file.
pub(crate) fn put_card(out: &mut [u8], p: Profile)
    requires { (751 ≤ length out.old) × ((p.max_level ≤ 16) × (p.skip_slices_from ≤ 17)) }
    ensures { Puts out.old out.new 0 (card_of p) 751 }
{
    put_version(out);
    put_levels(out, p.air);
    put_waves(out, p.air);
    put_thresholds(out, p);
    put_options(out, p);
}
