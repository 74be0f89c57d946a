// The default profile: the values of Config::new, document 01's reckoned harq numbers, and a plausible radio.
#![tactic(auto)]

ghost use Rattle.std.specs.Prelude.{◌≡◌};
ghost use Rattle.defaults.specs.Default.{new_air, new_harq, new_lengths, new_profile};

use config::{Air, HoldTimes, Lengths, Marks, MaybeDb, MaybeLevel, Profile};
use harq::Harq;

const SLOT_BITS: [u32; 17] = [
    1024, 1024, 770, 515, 385, 4320, 2880, 5760, 2880, 4320, 2880, 2160, 2160, 2160, 1920, 1920,
    1728,
];

const PRE_S: [f64; 17] = [
    2.6, 0.9, 0.9, 0.9, 0.9, 0.8, 0.8, 0.5, 0.5, 0.4, 0.4, 0.4, 0.4, 0.4, 0.4, 0.4, 0.4,
];

const RATE: [f64; 17] = [
    40.0, 150.0, 150.0, 150.0, 150.0, 750.0, 750.0, 2000.0, 2000.0, 2800.0, 2800.0, 2800.0, 4200.0,
    5600.0, 5600.0, 8400.0, 8400.0,
];

const ACK_S: [f64; 6] = [12.0, 3.2, 1.1, 0.9, 0.6, 0.5];

const ENDS: [u32; 6] = [5760, 4320, 2880, 2160, 1920, 1728];

const MARGIN_DB: f32 = -1.0;

fn new_air() -> Air
    ensures { result ≡ new_air }
{
    let slot_bits = SLOT_BITS;
    let pre_s = PRE_S;
    let rate = RATE;
    let ack_s = ACK_S;
    let max_bits = [0xFFFFFFFFu32; 17];
    Air {
        slot_bits,
        pre_s,
        rate,
        max_bits,
        ack_s,
        cue_s: 1.12,
    }
}

fn new_harq() -> Harq
    ensures { result ≡ new_harq }
{
    let ends = ENDS;
    Harq { mother: 5760, ends }
}

fn new_lengths() -> Lengths
    ensures { result ≡ new_lengths }
{
    Lengths {
        max_burst_s: 8.0,
        max_burst_long_s: 32.0,
        burst_overhead: 0.12,
        turnaround_s: 0.3,
        burst_adapt: true,
        burst_steady_db: 3.0,
        burst_climb_db: MaybeDb {
            set: false,
            db: 0.0,
        },
    }
}

// Config::new.
pub fn new_profile() -> Profile
    ensures { result ≡ new_profile }
{
    Profile {
        air: new_air(),
        short_bytes: 32,
        long_bytes: 180,
        codes: new_harq(),
        lengths: new_lengths(),
        hold_times: HoldTimes {
            fail_hold_s: 30.0,
            fail_hold_max_s: 480.0,
            loss_hold_s: 15.0,
        },
        plain: Marks {
            thresholds_db: level::thresholds_db(),
            margin_db: MARGIN_DB,
        },
        eff: Marks {
            thresholds_db: level::eff_thresholds_db(),
            margin_db: 0.0,
        },
        eff_snr: true,
        cue_below_db: 7.0,
        start_margin_db: MaybeDb { set: true, db: 3.0 },
        max_level: 16,
        skip_slices_from: 8,
        pin_level: MaybeLevel {
            set: false,
            level: 0,
        },
        goodput: true,
        power: 0,
        harq: true,
        pick_family: true,
        smooth_target: true,
        hold_by_goodput: true,
        slice_slots: true,
        merge_pieces: true,
        cue: true,
        harq_partial: true,
    }
}
