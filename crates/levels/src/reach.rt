// The highest level that an SNR allows (gear.rs, level_for).
ghost use Rattle.std.specs.Prelude.{◌≡◌, ◌<◌};
ghost use Rattle.levels.specs.Usable.{enough, level_for};

use crate::usable::{air_db, family_ok};
use config::Marks;
use level::FLOOR;
use report::ChanClass;

// Whether an SNR, moved to what level l would see, is enough for it.
fn enough(marks: Marks, power: u8, class: ChanClass, l: usize, snr_db: f32) -> bool
    requires { l < 17 }
    ensures { result ≡ enough marks power class l snr_db }
{
    family_ok(class, l) & (snr_db + air_db(power, l) >= marks.entry(l))
}

// The highest level that an SNR allows, in a waveform that the channel class allows.
pub fn level_for(marks: Marks, power: u8, class: ChanClass, top: usize, snr_db: f32) -> usize
    requires { top < 17 }
    ensures { result ≡ level_for marks power class top snr_db }
{
    for l in (0..top + 1).rev() {
        if enough(marks, power, class, l, snr_db) {
            return l;
        }
    }
    FLOOR
}
