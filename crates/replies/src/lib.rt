// The replies that sender_rx takes (sender.rs). What each leaves where it is accepted: specs/. No function.
#![tactic(auto)]

use config::MaybeDb;
use report::ChanClass;

// When and how a reply was heard: the time, the wave by rank, and the dB measured here.
#[repr(C)]
#[derive(Clone, Copy)]
pub struct Heard {
    pub time: f64,
    pub wave: u8,
    pub snr_db: f32,
}

// Tiny::ConnAck, with the session. `cue`: the called station's capabilities include CUE.
#[repr(C)]
#[derive(Clone, Copy)]
pub struct ConnAck {
    pub session: u8,
    pub snr_db: f32,
    pub class: ChanClass,
    pub slot: u8,
    pub cue: bool,
}

// Tiny::Ack.
#[repr(C)]
#[derive(Clone, Copy)]
pub struct Ack {
    pub burst: u8,
    pub bitmap: u8,
    pub snr_db: f32,
    pub want_turn: bool,
    pub want_disc: bool,
    pub stored: bool,
    pub class: ChanClass,
    pub slot: u8,
}

// The flags of a long ack's frame.
#[repr(C)]
#[derive(Clone, Copy)]
pub struct LongAck {
    pub want_turn: bool,
    pub want_disc: bool,
    pub stored: bool,
}

// Tiny::Turn.
#[repr(C)]
#[derive(Clone, Copy)]
pub struct Turn {
    pub report: MaybeDb,
}
