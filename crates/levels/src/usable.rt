// Which levels may be used: channel class, holds, steps up and down.
ghost use Rattle.std.specs.Prelude.{◌≡◌, ◌<◌};
ghost use Rattle.levels.specs.Usable.{air_db, heeded, family_ok, passes, usable, usable_below, climbs, climb_above};

use config::MaybeLevel;
use level::FLOOR;
use report::ChanClass;

// Per level: the time until which it is held off, and whether the hold rules out every faster level.
#[repr(C)]
#[derive(Clone, Copy)]
pub struct Holds {
    pub blocked_until: [f64; 17],
    pub hold_all: [bool; 17],
}

// Mean power of level l on the air against the carrier, dB, by the profile's power table.
pub fn air_db(power: u8, l: usize) -> f32
    requires { l < 17 }
    ensures { result ≡ air_db power l }
{
    match power {
        1 => level::air_mean_db(l),
        2 => level::air_mean_td_db(l),
        _ => 0.0,
    }
}

// The class that the gear goes by: without pick_family, none.
pub fn heeded(class: ChanClass, pick_family: bool) -> ChanClass
    ensures { result ≡ heeded pick_family class }
{
    if pick_family {
        class
    } else {
        ChanClass {
            echo: false,
            doppler: false,
        }
    }
}

// Whether the channel class allows level l's waveform.
pub fn family_ok(class: ChanClass, l: usize) -> bool
    requires { l < 17 }
    ensures { result ≡ family_ok class l }
{
    match level::wave_rank(l) {
        0..=2 => true,
        4 => !class.doppler,
        _ => !class.doppler & !class.echo,
    }
}

// Level k does not keep level l from being used: its hold, until `until`, is over, or k failed by the channel and l's guard is longer.
fn passes(until: f64, all: bool, k: usize, l: usize, now: f64) -> bool
    requires fact_1 { k < 17 }
    requires fact_2 { l < 17 }
    ensures { result ≡ passes until all l now k }
{
    if now >= until {
        return true;
    }
    let longer = level::guard_ms(level::wave_rank(l)) > level::guard_ms(level::wave_rank(k));
    (k != l) & !all & longer
}

impl Holds {
    // Whether level l may be used at `now`.
    fn usable(self, class: ChanClass, l: usize, now: f64) -> bool
        requires { l < 17 }
        ensures { result ≡ usable self class now l }
    {
        if !family_ok(class, l) {
            return false;
        }
        for k in 0..l + 1 {
            if !passes(self.blocked_until[k], self.hold_all[k], k, l, now) {
                return false;
            }
        }
        true
    }

    // The pinned level, else the highest usable level at or below l, else the floor.
    pub fn usable_below(self, class: ChanClass, pin: MaybeLevel, l: usize, now: f64) -> usize
        requires { l < 17 }
        ensures { result ≡ usable_below self class pin l now }
    {
        if pin.set {
            return pin.level;
        }
        for k in (0..l + 1).rev() {
            if self.usable(class, k, now) {
                return k;
            }
        }
        FLOOR
    }

    // A level that climb_above may name: usable, and no slow step where these are left out.
    fn climbs(self, class: ChanClass, skip: bool, now: f64, k: usize) -> bool
        requires { k < 17 }
        ensures { result ≡ climbs self class skip now k }
    {
        self.usable(class, k, now) & !(skip & level::is_step(k))
    }

    // The n-th level to climb to above `at`: the last there is, or `at` if there is none.
    pub fn climb_above(self, class: ChanClass, skip: bool, at: usize, n: usize, now: f64) -> usize
        requires { at < 17 }
        ensures { result ≡ climb_above self class skip at n now }
    {
        let mut to = at;
        let mut left = n;
        for k in at + 1..17 {
            if left == 0 {
                return to;
            }
            if self.climbs(class, skip, now, k) {
                to = k;
                left -= 1;
            }
        }
        to
    }
}
