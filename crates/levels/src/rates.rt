// What a level is worth (gear.rs, level_rate).
ghost use Rattle.std.specs.Prelude.{◌≡◌, ◌<◌};
ghost use Rattle.config.specs.Ranged.{Ranged};
ghost use Rattle.levels.specs.Rates.{frames_per_burst, pace_at, payload_bits, pace_rate, level_rate};
ghost use Rattle.levels.specs.RatesCode.{Paced};

use config::Profile;

// What a level's rate goes by: the seconds of a usual burst, pre_s + bits / rate seconds for a burst at the level, those of a
// cue, the coded bits of a frame, and the bytes of a short and a long one.
#[derive(Clone, Copy)]
pub struct Pace {
    pub usual: f64,
    pub pre_s: f64,
    pub rate: f64,
    pub cue_s: f64,
    pub slot: u32,
    pub short_bytes: u32,
    pub long_bytes: u32,
}

// How many frames, as a fraction, go into a burst of about `usual` seconds: `one` is the seconds of a burst of one frame, `two` of one of two.
fn frames_of(usual: f64, one: f64, two: f64) -> f64
    ensures { result ≡ frames_per_burst usual one two }
{
    let frame = two - one;
    let fixed = one - frame;
    (usual - fixed) / float::pick::max(frame, 1e-3)
}

impl Pace {
    // What a profile says of level l.
    pub fn at(cfg: &Profile, l: usize) -> Pace
        requires { l < 17 }
        ensures { result ≡ pace_at cfg.now l }
    {
        Pace {
            usual: cfg.lengths.max_burst_s,
            pre_s: cfg.air.pre_s[l],
            rate: cfg.air.rate[l],
            cue_s: cfg.air.cue_s,
            slot: cfg.air.slot_bits[l],
            short_bytes: cfg.short_bytes,
            long_bytes: cfg.long_bytes,
        }
    }

    // Level l's payload bits a frame.
    fn payload_bits(self, l: usize) -> u64
        requires { l < 17 }
        ensures { result ≡ payload_bits self l }
    {
        if level::long_frame(l) {
            u64::from(self.long_bytes) * 8
        } else {
            u64::from(self.short_bytes) * 8
        }
    }

    // Payload bits per second of air at level l, whose numbers these are, in a burst of about `usual` seconds.
    pub fn payload_rate(self, l: usize, cue: bool) -> f64
        requires fact_1 { l < 17 }
        requires fact_2 { Paced self }
        ensures { result ≡ pace_rate self l cue }
    {
        let slot = u64::from(self.slot);
        let lead = float::gear::cue_s(cue, self.cue_s);
        let one = float::gear::data_s(self.pre_s, self.rate, slot, lead);
        let two = float::gear::data_s(self.pre_s, self.rate, 2 * slot, lead);
        let frames = frames_of(self.usual, one, two);
        let most = float::whole::count_of(frames) * slot;
        let burst = float::gear::data_s(self.pre_s, self.rate, most, lead);
        let bits = std::num::nearest_u64_to_f64(self.payload_bits(l));
        float::pick::max(float::whole::floor64(frames), 1.0) * bits / float::pick::max(burst, 1e-3)
    }
}

// Payload bits per second of air at level l in a burst of about max_burst_s.
pub fn level_rate(cfg: Profile, l: usize, cue: bool) -> f64
    requires fact_1 { l < 17 }
    requires fact_2 { Ranged cfg }
    ensures { result ≡ level_rate cfg l cue }
{
    Pace::at(&cfg, l).payload_rate(l, cue)
}
