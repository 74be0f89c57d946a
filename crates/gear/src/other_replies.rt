// What the connect answer and a turn do to the gear (sender.rs).
ghost use Rattle.std.specs.Prelude.{◌≡◌, ◌<◌};
ghost use Rattle.config.specs.Ranged.{Ranged};
ghost use Rattle.gear.specs.OtherReplies.{start_level, connected, at_turn, on_turn};

use crate::goodput::marks;
use crate::{Gear, Outcome};
use config::{MaybeDb, Profile};
use level::FLOOR;
use levels::reach::level_for;
use levels::usable::{air_db, heeded};
use report::ChanClass;

impl Gear {
    // The level after a connect answer: what the report less start_margin_db allows, and without that margin the floor.
    fn start_level(self, cfg: Profile, aim: f32, now: f64) -> usize
        requires { Ranged cfg }
        ensures { result ≡ start_level cfg self aim now }
    {
        if cfg.start_margin_db.set {
            let l = level_for(
                marks(cfg),
                cfg.power,
                heeded(self.peer_class, cfg.pick_family),
                cfg.max_level,
                aim - cfg.start_margin_db.db,
            );
            return self.capped(cfg, l, now);
        }
        FLOOR
    }

    // A connect answer.
    pub fn connect(
        mut self,
        cfg: Profile,
        class: ChanClass,
        cue: bool,
        snr_db: f32,
        now: f64,
    ) -> Gear
        requires { Ranged cfg }
        ensures { result ≡ connected cfg self class cue snr_db now }
    {
        let aim = snr_db - air_db(cfg.power, FLOOR);
        let target = level_for(
            marks(cfg),
            cfg.power,
            heeded(class, cfg.pick_family),
            cfg.max_level,
            aim,
        );
        self.cue = cue;
        self.aim_db = MaybeDb { set: true, db: aim };
        self.peer_class = class;
        self.target = target;
        self.level = self.start_level(cfg, aim, now);
        self
    }

    // No faster than the turn reached us, and from the usual burst length again.
    fn turn(mut self, cfg: Profile, w: u8) -> Gear
        ensures { result ≡ at_turn cfg self w }
    {
        self.level = self.level.min(level::top_level_in(w));
        self.burst_s = cfg.lengths.max_burst_s;
        self
    }

    // A turn: the burst that is outstanding, if there is one, is lost.
    pub fn on_turn(mut self, cfg: Profile, burst: Outcome, snr_db: f32, w: u8, now: f64) -> Gear
        requires fact_1 { self.level < 17 }
        requires fact_2 { Ranged cfg }
        ensures { result ≡ on_turn cfg self burst snr_db w now }
    {
        if burst.empty {
            return self.turn(cfg, w);
        }
        let lost = Outcome {
            empty: false,
            fresh: burst.fresh,
            matched: false,
            sent: burst.sent,
            got: 0,
        };
        self = self.on_ack(cfg, lost, snr_db, now);
        self.turn(cfg, w)
    }
}
