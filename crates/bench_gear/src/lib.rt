// What bench/ measures of the gear, as a function for C.
#![tactic(auto)]

ghost use Rattle.std.specs.Prelude.{◌≡◌};
ghost use Rattle.bench_gear.specs.Acks.{tried, acks};

use config::MaybeDb;
use defaults::new_profile;
use gear::{Gear, Outcome};
use levels::memory::{Reports, Tries};
use levels::usable::Holds;
use report::ChanClass;

// A gear at level 9 that has tried every level and holds none off.
fn tried() -> Gear
    ensures { result ≡ tried }
{
    let none = MaybeDb {
        set: false,
        db: 0.0,
    };
    let reports = Reports {
        count: 0,
        a: 0.0,
        b: 0.0,
        c: 0.0,
    };
    let class = ChanClass {
        echo: false,
        doppler: false,
    };
    let tries = Tries {
        tried: [true; 17],
        success: [1.0; 17],
        success_at: [0.0; 17],
        fails: [1; 17],
    };
    let holds = Holds {
        blocked_until: [0.0; 17],
        hold_all: [true; 17],
    };
    Gear {
        level: 9,
        target: 9,
        burst_s: 8.0,
        aim_db: none,
        last_report_db: none,
        snr_reports: reports,
        peer_class: class,
        cue: true,
        tries: tries,
        holds: holds,
    }
}

// The level after n acks, each of nine frames of ten, under the default profile.
#[unsafe(no_mangle)]
pub extern "C" fn vanitycrow_acks(n: u64, snr_db: f32, now: f64) -> usize
    ensures { result ≡ (acks n snr_db now).level }
{
    let cfg = new_profile();
    let burst = Outcome {
        empty: false,
        fresh: true,
        matched: true,
        sent: 10,
        got: 9,
    };
    let mut g = tried();
    for _i in 0..n {
        g = g.on_ack(cfg, burst, snr_db, now);
    }
    g.level
}
