// What a reply says of the outstanding burst, and a burst that is outstanding no more (`on_ack` of gear.rs, `ack_in` of sender.rs).
ghost use Rattle.std.specs.Prelude.{◌≡◌, ◌≤◌, length};
ghost use Rattle.limits.specs.Limits.{max_slots};
ghost use Rattle.settle.specs.AckInCode.{bits_for, without_burst};
ghost use Rattle.settle.specs.OutcomesCode.{tallied, outcome_in};

use gear::Outcome;
use record::{LastBurst, Sender};

// Counts over a burst's frames: those sent fresh, those of them that came through, and all that came through.
#[derive(Clone, Copy)]
pub struct Came {
    pub fresh: u8,
    pub fresh_got: u8,
    pub got: u8,
}

// The counts of frames of so many bits, of which the peer then holds `held`.
fn tally(bits: &[u32], held: &[u32], bitmap: u64) -> Came
    requires { (length bits.now ≤ max_slots) × (length held.now ≡ length bits.now) }
    ensures { result ≡ tallied bitmap bits.now held.now }
{
    let mut t = Came {
        fresh: 0,
        fresh_got: 0,
        got: 0,
    };
    let mut b = bitmap;
    for (i, &sent) in bits.iter().enumerate() {
        let fresh = sent == held[i];
        let got = b % 2 == 1;
        t = Came {
            fresh: t.fresh + u8::from(fresh),
            fresh_got: t.fresh_got + u8::from(fresh & got),
            got: t.got + u8::from(got),
        };
        b = b / 2;
    }
    t
}

// What a reply says of the outstanding burst: the fresh frames count, or all where none is fresh.
pub fn outcome(s: LastBurst, bitmap: u64, matched: bool) -> Outcome
    requires { s.n ≤ max_slots }
    ensures { result ≡ outcome_in bitmap matched s }
{
    let n = s.n;
    let bits = s.bits;
    let held = s.held;
    let t = tally(&bits[..n], &held[..n], bitmap);
    if t.fresh == 0 {
        return Outcome {
            empty: n == 0,
            fresh: false,
            matched,
            sent: n as u8,
            got: t.got,
        };
    }
    Outcome {
        empty: false,
        fresh: true,
        matched,
        sent: t.fresh,
        got: t.fresh_got,
    }
}

// The bits of a short ack for a burst of n frames.
pub fn bits_for(n: usize, bitmap: u8) -> u64
    ensures { result ≡ bits_for n bitmap }
{
    if (6 < n) & (bitmap == 63) {
        return u64::MAX;
    }
    bitmap as u64
}

// The burst is outstanding no more, and nothing is settled.
pub fn clear_burst(s: Sender) -> Sender
    ensures { result ≡ without_burst s }
{
    let mut q = s;
    q.last_burst.n = 0;
    q.link.awaiting = false;
    q
}
