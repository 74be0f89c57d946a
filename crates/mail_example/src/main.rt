// A station program in short: it has one record and one work area, and lends the work area to the library, call by call. A mail is queued, sent
// in one burst and acknowledged; the program writes the transcript of these calls (docs/CALLS.md).
// The file stdout was not made by this program: it is the original's transcript of the same calls,
// `oracle/run transcript examples/short_mail.calls`.
#![tactic(auto)]

use config::Profile;
use defaults::new_profile;
use queuing::{Station, fresh};
use replies::{Ack, ConnAck, Heard};
use report::ChanClass;
use sender::{Left, Message, answered, connect, data_burst, queue, queued, short_ack};
use std::io;

// Bytes of a long frame, as the default profile has it.
const FRAME_BYTES: usize = 180;

fn plain() -> ChanClass {
    ChanClass {
        echo: false,
        doppler: false,
    }
}

fn connect_heard() -> Heard {
    Heard {
        time: 2.0,
        wave: 1,
        snr_db: 0.0,
    }
}

fn connect_answer() -> ConnAck {
    ConnAck {
        session: 9,
        snr_db: 1.0,
        class: plain(),
        slot: 0,
        cue: true,
    }
}

fn ack_heard() -> Heard {
    Heard {
        time: 12.0,
        wave: 3,
        snr_db: 0.5,
    }
}

// The frame of burst 1 arrived.
fn arrived() -> Ack {
    Ack {
        burst: 1,
        bitmap: 1,
        snr_db: 2.0,
        want_turn: false,
        want_disc: false,
        stored: false,
        class: plain(),
        slot: 0,
    }
}

// The record that the last call left, and how much of the transcript's buffer is used.
#[derive(Clone, Copy)]
struct Step {
    s: Station,
    n: usize,
}

fn stepped(q: Left, t: &mut [u8], n: usize, name: &[u8]) -> Step {
    let n = transcript::answer(t, n, name, q.refusal);
    let s = q.next;
    Step { s, n }
}

fn connect_step(p: Profile, a: &mut [u8], t: &mut [u8]) -> Step {
    let first = fresh();
    let q = connect(p, first, a, connect_heard(), connect_answer());
    stepped(answered(first, q), t, 0, b"connect")
}

fn queue_step(p: Profile, last: Step, a: &mut [u8], t: &mut [u8]) -> Step {
    let routine = Message { class: 3, label: 0 };
    let q = queue(
        p,
        last.s,
        a,
        routine,
        b"Snow since midnight, 40 cm at the door.\n",
    );
    stepped(queued(last.s, q), t, last.n, b"queue")
}

// The burst's frames stand in the output.
fn burst_step(p: Profile, last: Step, a: &mut [u8], out: &mut [u8], t: &mut [u8]) -> Step {
    let q = data_burst(p, last.s, a, out);
    let b = q.burst;
    let refusal = b.refusal;
    let s = q.next;
    if refusal != 0 {
        let n = transcript::answer(t, last.n, b"burst", refusal);
        return Step { s, n };
    }
    let sent = b.outgoing;
    let n = transcript::burst::burst(t, last.n, sent, FRAME_BYTES, out);
    Step { s, n }
}

fn ack_step(p: Profile, last: Step, a: &mut [u8], t: &mut [u8]) -> Step {
    let q = short_ack(p, last.s, a, ack_heard(), arrived());
    stepped(answered(last.s, q), t, last.n, b"short")
}

fn write_first(rt: &impl Print, t: &[u8], n: usize) -> io::Result<()> {
    if n <= t.len() {
        rt.write_all(&t[..n])?;
    }
    Ok(())
}

fn main(rt: HostRuntime) -> io::Result<()> {
    let mut area = [0u8; 49152];
    let mut out = [0u8; 32768];
    let mut text = [0u8; 1024];
    let p = new_profile();
    let connected = connect_step(p, &mut area, &mut text);
    let waits = queue_step(p, connected, &mut area, &mut text);
    let sent = burst_step(p, waits, &mut area, &mut out, &mut text);
    let acked = ack_step(p, sent, &mut area, &mut text);
    let last = acked.s;
    let n = state_lines::end(
        &mut text,
        acked.n,
        last.sender.counts,
        last.messages.withdrawn,
    );
    write_first(&rt, &text, n)
}
