// The example of a hold: the gear's own judgement of a whole burst lost, at a level that has lost two.
ghost use Rattle.std.specs.Prelude.{◌<◌};

use config::ranges::in_range;
use config::{MaybeDb, Profile};
use defaults::new_profile;
use float::whole::cut64;
use gear::{Gear, Outcome};
use levels::memory::{Reports, Tries};
use levels::usable::Holds;
use report::ChanClass;
use std::io;

const LEVEL: usize = 9;

// Nothing tried, no level held off.
fn fresh_tries() -> Tries {
    Tries {
        tried: [false; 17],
        success: [0.0; 17],
        success_at: [0.0; 17],
        fails: [0; 17],
    }
}

// A gear at LEVEL, which has failed twice.
fn failed_twice() -> Gear
    ensures { result.level < 17 }
{
    let none = MaybeDb {
        set: false,
        db: 0.0,
    };
    let class = ChanClass {
        echo: false,
        doppler: false,
    };
    let reports = Reports {
        count: 0,
        a: 0.0,
        b: 0.0,
        c: 0.0,
    };
    let holds = Holds {
        blocked_until: [0.0; 17],
        hold_all: [true; 17],
    };
    let tries = fresh_tries().fail(LEVEL).fail(LEVEL);
    Gear {
        level: LEVEL,
        target: LEVEL,
        burst_s: 8.0,
        aim_db: none,
        last_report_db: none,
        snr_reports: reports,
        peer_class: class,
        cue: true,
        tries,
        holds,
    }
}

// The ladder's profile, with a hold of 30 s after the first failure and of `most` at most.
fn ladder_profile(most: f64) -> Profile {
    let mut p = new_profile();
    p.goodput = false;
    p.hold_by_goodput = false;
    p.hold_times.fail_hold_s = 30.0;
    p.hold_times.fail_hold_max_s = most;
    p
}

// A burst lost whole at time 0 with SNR to spare: until when the level is held off.
fn hold_case(rt: &impl Print, text: &str, most: f64) -> io::Result<()> {
    let p = ladder_profile(most);
    let lost = Outcome {
        empty: false,
        fresh: true,
        matched: true,
        sent: 7,
        got: 0,
    };
    if in_range(p) {
        let g = failed_twice().on_ack(p, lost, 20.0, 0.0);
        let h = g.holds;
        let end = h.blocked_until[LEVEL];
        crate::say(rt, text, cut64(end))
    } else {
        println!(rt; "the profile is out of range")
    }
}

pub(crate) fn hold_cases(rt: &impl Print) -> io::Result<()> {
    hold_case(rt, "hold 30 s, third failure, no others, s ", 1000000.0)?;
    hold_case(rt, "capped at 100, s ", 100.0)
}
