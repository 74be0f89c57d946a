// Short and long acks (the Ack arm of sender_rx and its frame loop, sender.rs), once accepted.
ghost use Rattle.std.specs.Prelude.{◌≡◌, ◌≤◌};
ghost use Rattle.config.specs.Durations.{ack_at};
ghost use Rattle.config.specs.Ranged.{Ranged};
ghost use Rattle.record.specs.Airtime.{air_added};
ghost use Rattle.replies.specs.Replies.{ack_noted, long_db, short_acked, long_acked};
ghost use Rattle.replies.specs.RepliesCode.{ReplyReady};

use crate::awaited::ack_in;
use config::Profile;
use float::whole::to_millis;
use record::{Link, Sender};
use replies::{Ack, Heard, LongAck};
use report::ack::AckInfo;
use settle::outcome::bits_for;

// The wishes, the number last heard, and the time.
pub fn note(k: Link, time: f64, turn: bool, disc: bool, number: u8) -> Link
    ensures { result ≡ ack_noted k time turn disc number }
{
    let mut q = k;
    q.last_time = time;
    q.heard = true;
    q.peer_heard = number;
    q.peer_wants_turn = turn;
    q.peer_wants_disc = disc;
    q
}

fn long_db(p: Profile, i: AckInfo) -> f32
    ensures { result ≡ long_db p i }
{
    match i.report {
        Some(c) if p.eff_snr => c.eff_snr_db,
        _ => i.snr_db,
    }
}

// The milliseconds on the air, once an awaited ack has come in this wave.
fn ack_airtime(p: Profile, wave: u8, ms: u64) -> u64
    requires { wave ≤ 5 }
    ensures { result ≡ air_added ms (ack_at p.air wave) }
{
    ms.saturating_add(to_millis(p.air.ack(wave)))
}

// A short ack. One that is not awaited leaves only its wishes, its number and its time.
pub fn hear_short(p: Profile, s: Sender, a: &mut [u8], h: Heard, r: Ack) -> Sender
    requires fact_1 { Ranged p }
    requires fact_2 { ReplyReady p s a.old × (h.wave ≤ 5) }
    ensures { (result, a.new) ≡ short_acked p h r s a.old }
{
    let k = note(s.link, h.time, r.want_turn, r.want_disc, r.burst);
    let mut q = s;
    q.link = k;
    if !k.awaiting {
        return q;
    }
    let g = s.gear.with_class(r.class);
    let n = s.last_burst.n;
    q.gear = g;
    q.link.peer_slot = r.slot;
    let ms = ack_airtime(p, h.wave, s.counts.airtime_ms);
    q.counts.airtime_ms = ms;
    ack_in(
        p,
        q,
        a,
        r.burst,
        bits_for(n, r.bitmap),
        r.stored,
        r.snr_db,
        h.time,
    )
}

// A long ack, as AckInfo::from_bytes read it.
pub fn hear_long(p: Profile, s: Sender, a: &mut [u8], h: Heard, r: LongAck, i: AckInfo) -> Sender
    requires fact_1 { Ranged p }
    requires fact_2 { ReplyReady p s a.old × (h.wave ≤ 5) }
    ensures { (result, a.new) ≡ long_acked p h r i s a.old }
{
    let k = note(s.link, h.time, r.want_turn, r.want_disc, i.burst);
    let mut q = s;
    q.link = k;
    if !k.awaiting {
        return q;
    }
    let c = i.report_or_none();
    let g = s.gear.with_class(c.class);
    q.gear = g;
    q.link.peer_slot = c.slot;
    q.link.peer_doppler_hz = c.doppler_hz;
    let ms = ack_airtime(p, h.wave, s.counts.airtime_ms);
    q.counts.airtime_ms = ms;
    let db = long_db(p, i);
    ack_in(p, q, a, i.burst, i.bitmap, r.stored, db, h.time)
}
