// Steps down (gear.rs, step_down).
ghost use Rattle.std.specs.Prelude.{◌≡◌, ◌<◌};
ghost use Rattle.levels.specs.Usable.{allowed_below, lowest_long, nth_below, step_down};

use crate::usable::family_ok;
use level::FLOOR;
use report::ChanClass;

// The highest level below `at` whose waveform the class allows, or the floor.
fn allowed_below(class: ChanClass, at: usize) -> usize
    requires { at < 17 }
    ensures { result ≡ allowed_below class at }
{
    for k in (0..at).rev() {
        if family_ok(class, k) {
            return k;
        }
    }
    FLOOR
}

// The lowest level below `at` that the class allows and that has long frames, or the floor.
fn lowest_long(class: ChanClass, at: usize) -> usize
    requires { at < 17 }
    ensures { result ≡ lowest_long class at }
{
    for k in 0..at {
        if family_ok(class, k) & level::long_frame(k) {
            return k;
        }
    }
    FLOOR
}

// The first allowed level below `at`, or the second.
fn nth_below(class: ChanClass, at: usize, second: bool) -> usize
    requires { at < 17 }
    ensures { result ≡ nth_below class at second }
{
    let one = allowed_below(class, at);
    if second {
        allowed_below(class, one)
    } else {
        one
    }
}

// One level below `at`, or two: from a long-frame level no further than the lowest allowed one with long frames.
pub fn step_down(class: ChanClass, at: usize, second: bool) -> usize
    requires { at < 17 }
    ensures { result ≡ step_down class at second }
{
    let to = nth_below(class, at, second);
    if level::long_frame(at) {
        to.max(lowest_long(class, at))
    } else {
        to
    }
}
