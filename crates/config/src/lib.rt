// config.rs: the profile of a sender, and what stands in for the Air of station.rs.
#![tactic(auto)]

ghost use Rattle.std.specs.Prelude.{◌≡◌, ◌*◌, ◌<◌};
ghost use Rattle.config.specs.Durations.{slot_at, frame_bits, max_bits_at, duration_at, ack_at, data_at, frame_bytes};
ghost use Rattle.config.specs.Entries.{entry_at};

use harq::Harq;

pub mod ranges;

// An optional dB value: a flag beside it.
// kept: the C interface has no Option, here and in MaybeLevel.
#[repr(C)]
#[derive(Clone, Copy)]
pub struct MaybeDb {
    pub set: bool,
    pub db: f32,
}

// An optional level.
#[repr(C)]
#[derive(Clone, Copy)]
pub struct MaybeLevel {
    pub set: bool,
    pub level: usize,
}

// The air: per level the coded bits of a frame, and pre_s + bits / rate seconds for a burst of at most max_bits; per wave the
// seconds of a short ack; and those of a cue.
#[repr(C)]
#[derive(Clone, Copy)]
pub struct Air {
    pub slot_bits: [u32; 17],
    pub pre_s: [f64; 17],
    pub rate: [f64; 17],
    pub max_bits: [u32; 17],
    pub ack_s: [f64; 6],
    pub cue_s: f64,
}

// Gear-shift thresholds for each level, and the margin wanted above them: thresholds_db with margin_db, or eff_thresholds_db
// with eff_margin_db.
#[repr(C)]
#[derive(Clone, Copy)]
pub struct Marks {
    pub thresholds_db: [f32; 17],
    pub margin_db: f32,
}

// The length of bursts.
#[repr(C)]
#[derive(Clone, Copy)]
pub struct Lengths {
    pub max_burst_s: f64,
    pub max_burst_long_s: f64,
    pub burst_overhead: f64,
    pub turnaround_s: f64,
    pub burst_adapt: bool,
    pub burst_steady_db: f32,
    pub burst_climb_db: MaybeDb,
}

// How long a level is held off.
#[repr(C)]
#[derive(Clone, Copy)]
pub struct HoldTimes {
    pub fail_hold_s: f64,
    pub fail_hold_max_s: f64,
    pub loss_hold_s: f64,
}

// The Config values that the sender uses, and the bodies that the files lack.
#[repr(C)]
#[derive(Clone, Copy)]
pub struct Profile {
    pub air: Air,
    pub short_bytes: u32,
    pub long_bytes: u32,
    pub codes: Harq,
    pub lengths: Lengths,
    pub hold_times: HoldTimes,
    pub plain: Marks,
    pub eff: Marks,
    pub eff_snr: bool,
    pub cue_below_db: f32,
    pub start_margin_db: MaybeDb,
    pub max_level: usize,
    pub skip_slices_from: usize,
    pub pin_level: MaybeLevel,
    // Gear::Goodput; else Gear::Ladder.
    pub goodput: bool,
    // 0: no power table, 1: AIR_MEAN_DB, 2: AIR_MEAN_TD_DB.
    pub power: u8,
    pub harq: bool,
    pub pick_family: bool,
    pub smooth_target: bool,
    pub hold_by_goodput: bool,
    pub slice_slots: bool,
    pub merge_pieces: bool,
    pub cue: bool,
    pub harq_partial: bool,
}

impl Air {
    // Level::coded_bits.
    pub fn slot(self, l: usize) -> u32
        requires { l < 17 }
        ensures { result ≡ slot_at self l }
    {
        self.slot_bits[l]
    }

    // frame_bits: the coded bits of whole frames.
    pub fn frame_bits(self, l: usize, frames: u32) -> u64
        requires { l < 17 }
        ensures { result ≡ frame_bits self l frames }
    {
        u64::from(frames) * u64::from(self.slot(l))
    }

    // Air::max_bits.
    pub fn most_bits(self, l: usize) -> u32
        requires { l < 17 }
        ensures { result ≡ max_bits_at self l }
    {
        self.max_bits[l]
    }

    // Air::duration of a data burst.
    pub fn duration(self, l: usize, bits: u64) -> f64
        requires { l < 17 }
        ensures { result ≡ duration_at self l bits }
    {
        float::gear::duration(self.pre_s[l], self.rate[l], bits)
    }

    // Air::duration of a short ack, TINY.
    pub fn ack(self, w: u8) -> f64
        requires { w < 6 }
        ensures { result ≡ ack_at self w }
    {
        let k = w as usize;
        self.ack_s[k]
    }

    // data_s of gear.rs: behind a cue or not.
    pub fn data_s(self, l: usize, bits: u64, cue: bool) -> f64
        requires { l < 17 }
        ensures { result ≡ data_at self l bits cue }
    {
        let lead = float::gear::cue_s(cue, self.cue_s);
        float::gear::data_s(self.pre_s[l], self.rate[l], bits, lead)
    }
}

impl Marks {
    // The SNR from which level l is aimed at: its threshold and the margin.
    pub fn entry(self, l: usize) -> f32
        requires { l < 17 }
        ensures { result ≡ entry_at self l }
    {
        self.thresholds_db[l] + self.margin_db
    }
}

impl Profile {
    // Level::frame_bytes.
    pub fn frame_bytes(self, l: usize) -> u32
        requires { l < 17 }
        ensures { result ≡ frame_bytes self l }
    {
        if level::long_frame(l) {
            return self.long_bytes;
        }
        self.short_bytes
    }
}
