// Connect answers and turns (the ConnAck and Turn arms of sender_rx, sender.rs), once accepted.
ghost use Rattle.std.specs.Prelude.{◌≡◌, ◌≤◌, ◌<◌};
ghost use Rattle.config.specs.Ranged.{Ranged};
ghost use Rattle.replies.specs.Replies.{turn_db, connected_to};
ghost use Rattle.limits.specs.Limits.{max_slots};
ghost use Rattle.replies.specs.RepliesCode.{turned_to};

use config::Profile;
use record::Sender;
use replies::{ConnAck, Heard, Turn};
use settle::outcome::{clear_burst, outcome};

fn turn_db(h: Heard, r: Turn) -> f32
    ensures { result ≡ turn_db h r }
{
    if r.report.set {
        return r.report.db;
    }
    h.snr_db
}

// A turn while we already send: the outstanding burst is lost.
pub fn hear_turn(p: Profile, s: Sender, h: Heard, r: Turn) -> Sender
    requires fact_1 { Ranged p }
    requires fact_2 { (s.gear.level < 17) × (s.last_burst.n ≤ max_slots) }
    ensures { result ≡ turned_to p h r s }
{
    let o = outcome(s.last_burst, 0, false);
    let g = s.gear.on_turn(p, o, turn_db(h, r), h.wave, h.time);
    let mut q = s;
    q.gear = g;
    q.link.last_time = h.time;
    clear_burst(q)
}

// A connect answer.
pub fn hear_connect(p: Profile, s: Sender, h: Heard, r: ConnAck) -> Sender
    requires { Ranged p }
    ensures { result ≡ connected_to p h r s }
{
    let g = s.gear.connect(p, r.class, p.cue & r.cue, r.snr_db, h.time);
    let mut q = s;
    q.gear = g;
    q.link.connected = true;
    q.link.awaiting = false;
    q.link.session = r.session;
    q.link.last_time = h.time;
    q.link.peer_slot = r.slot;
    q
}
