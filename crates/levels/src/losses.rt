// What a burst lost, and the holds that this leads to (gear.rs, on_ack).
ghost use Rattle.std.specs.Prelude.{◌≡◌, ◌<◌};
ghost use Rattle.float.specs.Gear.{loss_of};
ghost use Rattle.levels.specs.Memory.{holding, others, held_until};

use crate::usable::Holds;

// 1 - got / sent
// kept: float::gear::loss asks that got be at most sent and sent at most 64, and this asks nothing.
pub fn loss(got: u8, sent: u8) -> f32
    ensures { result ≡ loss_of got sent }
{
    1.0 - (got as f32) / (sent as f32)
}

// Another level in another waveform that is held off by the channel.
fn holding(h: Holds, at: usize, now: f64, k: usize) -> bool
    requires fact_1 { k < 17 }
    requires fact_2 { at < 17 }
    ensures { result ≡ holding h at now k }
{
    (k != at)
        & (now < h.blocked_until[k])
        & !h.hold_all[k]
        & (level::wave_rank(k) != level::wave_rank(at))
}

// How many of them there are.
pub fn others(h: Holds, at: usize, now: f64) -> u64
    requires { at < 17 }
    ensures { result ≡ others h at now }
{
    let mut n: u64 = 0;
    for k in 0..17usize {
        if holding(h, at, now, k) {
            n += 1;
        }
    }
    n
}

// Level k is held off until `end` at least.
pub fn hold_until(h: Holds, k: usize, end: f64, all: bool) -> Holds
    requires { k < 17 }
    ensures { result ≡ held_until h k end all }
{
    let mut out = h;
    let until = float::pick::max(h.blocked_until[k], end);
    out.blocked_until[k] = until;
    out.hold_all[k] = all;
    out
}
