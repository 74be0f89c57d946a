// Gear::Goodput of gear.rs: what a level is worth, and the level expected to move the most.
ghost use Rattle.std.specs.Prelude.{◌≡◌, ◌<◌};
ghost use Rattle.config.specs.Ranged.{Ranged};
ghost use Rattle.gear.specs.Goodput.{prior_of, memory_s, remembered, marks_of, bar_of, over};
ghost use Rattle.gear.specs.Levels.{seen_at, sight_at, seen_chance, sight_room, sight_reach, view_candidate, view_worth, view_weighed, view_best};
ghost use Rattle.levels.specs.RatesCode.{Paced};

use config::{Marks, Profile};
use levels::memory::Tries;
use levels::rates::Pace;
use levels::usable::{air_db, family_ok};
use report::ChanClass;

// The chance of a burst by its distance from the level's threshold: 1 / (1 + e^(-(room + 0.5) / 0.25)).
fn prior(room: f32) -> f32
    ensures { result ≡ prior_of room }
{
    1.0 / (1.0 + exp::exp32(-(room + 0.5) / 0.25))
}

// 180 s, doubled for each of at most four failures.
fn memory_s(fails: u8) -> f64
    ensures { result ≡ memory_s fails }
{
    match fails {
        0 => 180.0,
        1 => 360.0,
        2 => 720.0,
        3 => 1440.0,
        _ => 2880.0,
    }
}

// How much an observed share still counts.
fn remembered(now: f64, at: f64, fails: u8) -> f32
    ensures { result ≡ remembered now at fails }
{
    exp::narrow::narrowed(exp::exp64(-(now - at) / memory_s(fails)))
}

// What is remembered of a level.
#[derive(Clone, Copy)]
struct Seen {
    tried: bool,
    success: f32,
    at: f64,
    fails: u8,
}

impl Seen {
    // What is remembered of level l.
    fn at(tries: &Tries, l: usize) -> Seen
        requires { l < 17 }
        ensures { result ≡ seen_at tries.now l }
    {
        Seen {
            tried: tries.tried[l],
            success: tries.success[l],
            at: tries.success_at[l],
            fails: tries.fails[l],
        }
    }

    // The level's chance: what was observed, blended with the prior.
    fn chance(self, prior: f32, now: f64) -> f32
        ensures { result ≡ seen_chance self prior now }
    {
        if self.tried {
            let w = remembered(now, self.at, self.fails);
            return w * self.success + (1.0 - w) * prior;
        }
        prior
    }
}

// The thresholds and the margin that the reports are held against.
pub fn marks(cfg: Profile) -> Marks
    ensures { result ≡ marks_of cfg }
{
    if cfg.eff_snr { cfg.eff } else { cfg.plain }
}

// What a level would see, and what it wants.
#[derive(Clone, Copy)]
struct Sight {
    db: f32,
    threshold_db: f32,
    margin_db: f32,
}

impl Sight {
    // What level l would see of the SNR aimed by, and what it wants.
    fn at(marks: &Marks, power: u8, l: usize, aim: f32) -> Sight
        requires { l < 17 }
        ensures { result ≡ sight_at marks.now power l aim }
    {
        Sight {
            db: aim + air_db(power, l),
            threshold_db: marks.thresholds_db[l],
            margin_db: marks.margin_db,
        }
    }

    // How far the one is above the other.
    fn room(self) -> f32
        ensures { result ≡ sight_room self }
    {
        self.db - self.threshold_db - self.margin_db
    }

    // A level more than 2 dB short of its threshold is not tried.
    fn in_reach(self) -> bool
        ensures { result ≡ sight_reach self }
    {
        self.db >= self.threshold_db + self.margin_db - 2.0
    }
}

// What a change from level `at` to l must promise: more across frame sizes, which re-cut what is in flight.
fn bar(l: usize, at: usize) -> f64
    requires fact_1 { l < 17 }
    requires fact_2 { at < 17 }
    ensures { result ≡ bar_of l at }
{
    if l == at {
        1.0
    } else if level::long_frame(l) == level::long_frame(at) {
        1.15
    } else {
        1.15 * 1.15
    }
}

// The best level so far.
#[derive(Clone, Copy)]
pub struct Best {
    pub level: usize,
    pub worth: f64,
}

// max_by: the later one where it is not less.
fn over(best: Option<Best>, l: usize, worth: f64) -> Option<Best>
    ensures { result ≡ over best l worth }
{
    match best {
        Some(b) if !float::order::total_le(b.worth, worth) => best,
        _ => Some(Best { level: l, worth }),
    }
}

// What every level is held against: the present level, the class that the gear goes by, whether both ends agreed to cues, whether
// the SNR aimed by is not known or calls for them, and the time.
#[derive(Clone, Copy)]
pub struct View {
    pub level: usize,
    pub class: ChanClass,
    pub cue: bool,
    pub low: bool,
    pub now: f64,
}

impl View {
    // The present level, or one that the class allows and that is in reach.
    fn candidate(self, l: usize, sight: Sight) -> bool
        requires { l < 17 }
        ensures { result ≡ view_candidate self l sight }
    {
        (l == self.level) | (family_ok(self.class, l) & sight.in_reach())
    }

    fn worth(self, l: usize, sight: Sight, seen: Seen, pace: Pace) -> f64
        requires fact_1 { l < 17 }
        requires fact_2 { self.level < 17 }
        requires fact_3 { Paced pace }
        ensures { result ≡ view_worth self l sight seen pace }
    {
        let chance = seen.chance(prior(sight.room()), self.now);
        let w = level::wave_rank(l);
        let rate = pace.payload_rate(l, self.cue & (w >= 4) & self.low);
        std::num::f32_to_f64_with_nan(chance) * rate / bar(l, self.level)
    }

    // One level held against the best so far.
    fn weigh(
        self,
        best: Option<Best>,
        l: usize,
        sight: Sight,
        seen: Seen,
        pace: Pace,
    ) -> Option<Best>
        requires fact_1 { l < 17 }
        requires fact_2 { self.level < 17 }
        requires fact_3 { Paced pace }
        ensures { result ≡ view_weighed self best l sight seen pace }
    {
        if self.candidate(l, sight) {
            return over(best, l, self.worth(l, sight, seen, pace));
        }
        best
    }

    // The best of the levels, by the thresholds, what is remembered of each, and the SNR aimed by.
    pub(crate) fn best(self, cfg: Profile, tries: Tries, aim: f32) -> Option<Best>
        requires fact_1 { self.level < 17 }
        requires fact_2 { Ranged cfg }
        ensures { result ≡ view_best cfg self tries aim }
    {
        let marks = marks(cfg);
        let mut best = None;
        for l in 0..cfg.max_level + 1 {
            let sight = Sight::at(&marks, cfg.power, l, aim);
            best = self.weigh(best, l, sight, Seen::at(&tries, l), Pace::at(&cfg, l));
        }
        best
    }
}
