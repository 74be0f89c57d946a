// The sender's record: the sending half of Station (station.rs), nested in small structs.
#![tactic(auto)]

ghost use Rattle.std.specs.Prelude.{◌≡◌};
ghost use Rattle.record.specs.Fresh.{fresh_gear, fresh_link, no_counts, no_held, no_sent, fresh};

use config::MaybeDb;
use gear::Gear;
use levels::memory::{Reports, Tries};
use levels::usable::Holds;
use limits::MAX_SLOTS;
use report::ChanClass;

// What the sender knows of the link.
#[repr(C)]
#[derive(Clone, Copy)]
pub struct Link {
    // State::Connected.
    pub connected: bool,
    // Awaiting::Ack.
    pub awaiting: bool,
    pub session: u8,
    // The last accepted time.
    pub last_time: f64,
    pub burst_id: u8,
    // Whether a burst number was heard, and the one last heard.
    pub heard: bool,
    pub peer_heard: u8,
    pub peer_slot: u8,
    pub peer_doppler_hz: f32,
    pub peer_wants_turn: bool,
    pub peer_wants_disc: bool,
    // The wave, by rank, that the held pieces were stored from.
    pub peer_wave: u8,
}

// Bytes and pieces, and the milliseconds on the air.
#[repr(C)]
#[derive(Clone, Copy)]
pub struct Counts {
    pub next_offset: u32,
    pub waiting: u32,
    pub flying: u32,
    pub pieces: usize,
    pub bytes_acked: u32,
    pub airtime_ms: u64,
}

// at_peer: n held pieces; the last `rest` of them are at_peer_rest.
// kept: arrays side by side with a count, here and in LastBurst: C interface.
#[repr(C)]
#[derive(Clone, Copy)]
pub struct AtPeer {
    pub off: [u32; MAX_SLOTS],
    pub bits: [u32; MAX_SLOTS],
    pub n: usize,
    pub rest: usize,
}

// last_burst: the n frames of the outstanding burst.
#[repr(C)]
#[derive(Clone, Copy)]
pub struct LastBurst {
    pub off: [u32; MAX_SLOTS],
    pub bits: [u32; MAX_SLOTS],
    pub held: [u32; MAX_SLOTS],
    pub n: usize,
}

#[repr(C)]
#[derive(Clone, Copy)]
pub struct Sender {
    pub gear: Gear,
    pub link: Link,
    pub counts: Counts,
    pub at_peer: AtPeer,
    pub last_burst: LastBurst,
}

fn fresh_gear() -> Gear
    ensures { result ≡ fresh_gear }
{
    let never = -1.0 / 0.0;
    let none = MaybeDb {
        set: false,
        db: 0.0,
    };
    Gear {
        level: 0,
        target: 0,
        burst_s: 0.0,
        aim_db: none,
        last_report_db: none,
        snr_reports: Reports {
            count: 0,
            a: 0.0,
            b: 0.0,
            c: 0.0,
        },
        peer_class: ChanClass {
            echo: false,
            doppler: false,
        },
        cue: false,
        tries: Tries {
            tried: [false; 17],
            success: [0.0; 17],
            success_at: [never; 17],
            fails: [0; 17],
        },
        holds: Holds {
            blocked_until: [never; 17],
            hold_all: [true; 17],
        },
    }
}

fn fresh_link() -> Link
    ensures { result ≡ fresh_link }
{
    Link {
        connected: false,
        awaiting: false,
        session: 0,
        last_time: 0.0,
        burst_id: 0,
        heard: false,
        peer_heard: 0,
        peer_slot: 0,
        peer_doppler_hz: 0.0 / 0.0,
        peer_wants_turn: false,
        peer_wants_disc: false,
        peer_wave: 1,
    }
}

// Station::new.
pub fn fresh() -> Sender
    ensures { result ≡ fresh }
{
    Sender {
        gear: fresh_gear(),
        link: fresh_link(),
        counts: Counts {
            next_offset: 0,
            waiting: 0,
            flying: 0,
            pieces: 0,
            bytes_acked: 0,
            airtime_ms: 0,
        },
        at_peer: AtPeer {
            off: [0; MAX_SLOTS],
            bits: [0; MAX_SLOTS],
            n: 0,
            rest: 0,
        },
        last_burst: LastBurst {
            off: [0; MAX_SLOTS],
            bits: [0; MAX_SLOTS],
            held: [0; MAX_SLOTS],
            n: 0,
        },
    }
}
