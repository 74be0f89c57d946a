// Gear::Ladder of gear.rs: a level that loses a burst is held off, and the next one is a step away.
ghost use Rattle.std.specs.Prelude.{◌≡◌, ◌<◌};
ghost use Rattle.config.specs.Ranged.{Ranged};
ghost use Rattle.gear.specs.Judging.{worth_keeping, fail_hold, held, spotless, climbed, next_level, next_allowed, by_ladder};

use crate::{Gear, blamed};
use config::Profile;
use levels::down::step_down;
use levels::losses::{hold_until, others};
use levels::memory::Tries;
use levels::rates::level_rate;
use levels::usable::{family_ok, heeded};

// No level from `one` to `far` has failed.
fn spotless(tries: Tries, one: usize, far: usize) -> bool
    requires { far < 17 }
    ensures { result ≡ spotless tries one far }
{
    for k in one..far + 1 {
        if tries.fails[k] != 0 {
            return false;
        }
    }
    true
}

impl Gear {
    // Level `at` still moves more than the level that a loss would step down to.
    fn worth_keeping(self, cfg: Profile, at: usize, now: f64) -> bool
        requires fact_1 { at < 17 }
        requires fact_2 { Ranged cfg }
        ensures { result ≡ worth_keeping cfg self at now }
    {
        let class = heeded(self.peer_class, cfg.pick_family);
        let lower = self
            .holds
            .usable_below(class, cfg.pin_level, step_down(class, at, false), now);
        let here = std::num::f32_to_f64_with_nan(self.tries.share(at))
            * level_rate(cfg, at, self.cue_for(cfg, at));
        let there = level_rate(cfg, lower, self.cue_for(cfg, lower));
        cfg.hold_by_goodput & (at <= self.target) & (lower < at) & (here > there)
    }

    // How long level `at` is held off after a whole burst lost: each other waveform held by the channel doubles it too.
    fn fail_hold(self, cfg: Profile, at: usize, channel: bool, now: f64) -> f64
        requires { at < 17 }
        ensures { result ≡ fail_hold cfg self at channel now }
    {
        let fails = self.tries.next_fails(at) as u64;
        let first = cfg.hold_times.fail_hold_s;
        let most = cfg.hold_times.fail_hold_max_s;
        if channel {
            return exp::hold::hold(first, fails - 1 + others(self.holds, at, now), most);
        }
        exp::hold::hold(first, fails - 1 + 0, most)
    }

    // Level `at` after a burst: held off, or cleared.
    fn hold(mut self, cfg: Profile, at: usize, loss: f32, snr_db: f32, now: f64) -> Gear
        requires { at < 17 }
        ensures { result ≡ held cfg at loss snr_db now self }
    {
        if loss > 0.99 {
            let channel = blamed(cfg, at, snr_db);
            let end = now + self.fail_hold(cfg, at, channel, now);
            self.holds = hold_until(self.holds, at, end, !channel);
            self.tries = self.tries.fail(at);
            return self;
        }
        if loss > 0.3 {
            self.holds = hold_until(self.holds, at, now + cfg.hold_times.loss_hold_s, true);
            return self;
        }
        self.tries = self.tries.clear(at);
        self
    }

    // Up the ladder: halfway to the target while far below, one at a time into a level that has failed before.
    fn climb(self, cfg: Profile, at: usize, now: f64) -> usize
        requires fact_1 { at < 17 }
        requires fact_2 { self.target < 17 }
        requires fact_3 { at < self.target }
        ensures { result ≡ climbed cfg self at now }
    {
        let class = heeded(self.peer_class, cfg.pick_family);
        let gap = self.target - at;
        let skip = (self.target >= cfg.skip_slices_from) & !level::is_step(self.target);
        let one = self.holds.climb_above(class, skip, at, 1, now);
        let far = self
            .holds
            .climb_above(class, skip, at, ((gap + 1) / 2).max(2), now);
        if (gap >= 3) & spotless(self.tries, one, far) {
            far
        } else {
            one
        }
    }

    fn next_level(self, cfg: Profile, at: usize, loss: f32, now: f64) -> usize
        requires fact_1 { at < 17 }
        requires fact_2 { self.target < 17 }
        ensures { result ≡ next_level cfg self at loss now }
    {
        let class = heeded(self.peer_class, cfg.pick_family);
        if loss > 0.99 {
            return step_down(class, at, true);
        }
        if loss > 0.3 {
            return step_down(class, at, false);
        }
        if (loss == 0.0) & (at < self.target) {
            return self.climb(cfg, at, now);
        }
        at
    }

    // The report may rule out the waveform just used: then straight to the target.
    fn next_allowed(self, cfg: Profile, at: usize, loss: f32, now: f64) -> usize
        requires fact_1 { at < 17 }
        requires fact_2 { self.target < 17 }
        ensures { result ≡ next_allowed cfg self at loss now }
    {
        let next = self.next_level(cfg, at, loss, now);
        if family_ok(heeded(self.peer_class, cfg.pick_family), at) {
            next
        } else {
            self.target
        }
    }

    // Gear::Ladder.
    pub(crate) fn by_ladder(
        mut self,
        cfg: Profile,
        at: usize,
        loss: f32,
        snr_db: f32,
        now: f64,
    ) -> Gear
        requires fact_1 { at < 17 }
        requires fact_2 { self.target < 17 }
        requires fact_3 { Ranged cfg }
        ensures { result ≡ by_ladder cfg at loss snr_db now self }
    {
        if (loss > 0.3) & self.worth_keeping(cfg, at, now) {
            self.level = self.capped(cfg, at, now);
            return self;
        }
        self = self.hold(cfg, at, loss, snr_db, now);
        self.level = self.capped(cfg, self.next_allowed(cfg, at, loss, now), now);
        self
    }
}
