// What the gear, the level and the profile say of the next burst.
ghost use Rattle.std.specs.Prelude.{◌≡◌, ◌<◌};
ghost use Rattle.outgoing.specs.Choosing.{chosen};

use config::Profile;
use gear::Gear;
use plan::Choice;
use record::Link;

// The first lines of data_burst.
pub fn choose(p: Profile, g: Gear, k: Link) -> Choice
    requires { g.level < 17 }
    ensures { result ≡ chosen p g k }
{
    let l = g.level;
    let air = p.air;
    let cue = g.cue_for(p, l);
    let max_s = g.burst_len_s(p, l);
    Choice {
        long: level::long_frame(l),
        same_wave: level::wave_rank(l) == k.peer_wave,
        partial: cue & p.harq_partial,
        slot: air.slot(l),
        pre_s: air.pre_s[l],
        rate: air.rate[l],
        cue_s: float::gear::cue_s(cue, air.cue_s),
        max_s,
        max_bits: air.most_bits(l),
    }
}
