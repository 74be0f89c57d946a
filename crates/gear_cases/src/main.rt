// Drives the gear alone with decisions of the original that `oracle/run gear SEED COUNT` stored: a profile and a fresh gear, then replies, and after
// each of them every field of the record against the original's, by its bits. `stdout` holds the counts, and a difference is written as it is found.
// stdin: profiles of 1,172 bytes, 146 numbers and how many replies follow. A reply is 60 bytes, and 24 for each level that it changed.
#![tactic(auto)]

mod read;
mod same;

ghost use Rattle.std.specs.Prelude.{◌<◌};
ghost use Rattle.config.specs.Ranged.{Ranged};

use byte_copy::Little;
use config::{MaybeDb, Profile};
use gear::{Gear, Outcome};
use levels::memory::{Reports, Tries};
use levels::usable::Holds;
use profile_table::profile_of;
use read::{f32_at, f64_at, read_full, table_of};
use report::ChanClass;
use same::differing;
use std::io;
use std::io::Read;

// The kinds of replies.
#[derive(Clone, Copy)]
pub enum Kind {
    Connect,
    // Acks with the burst's number, and with another.
    Matched,
    Unmatched,
    // Acks of increments only, and of an empty burst.
    Increments,
    Empty,
    // Turns with a burst outstanding, and without.
    Turn,
    QuietTurn,
}

// Counts: of profiles, of replies in goodput and in ladder, of each kind of reply, and of differences.
#[derive(Clone, Copy, Default)]
pub struct Counts {
    pub profiles: u64,
    pub goodput: u64,
    pub ladder: u64,
    pub connects: u64,
    pub matched: u64,
    pub unmatched: u64,
    pub increments: u64,
    pub empty: u64,
    pub turns: u64,
    pub quiet_turns: u64,
    pub differences: u64,
}

// One more, up to a bound that no run reaches.
fn more(n: u64) -> u64 {
    n.saturating_add(1).min(1000000000000)
}

// The next N bytes of the input, or zeros where it ends.
fn next<const N: usize>(input: &mut impl Read) -> io::Result<[u8; N]> {
    let mut a = [0u8; N];
    read_full(input, &mut a)?;
    Ok(a)
}

fn no_db() -> MaybeDb {
    MaybeDb {
        set: false,
        db: 0.0,
    }
}

// The gear of a fresh Station.
fn fresh(cfg: Profile) -> Gear {
    let never: f64 = -1.0 / 0.0;
    Gear {
        level: 0,
        target: 0,
        burst_s: cfg.lengths.max_burst_s,
        aim_db: no_db(),
        last_report_db: no_db(),
        snr_reports: Reports {
            count: 0,
            a: 0.0,
            b: 0.0,
            c: 0.0,
        },
        peer_class: ChanClass {
            echo: false,
            doppler: false,
        },
        cue: false,
        tries: Tries {
            tried: [false; 17],
            success: [0.0; 17],
            success_at: [never; 17],
            fails: [0; 17],
        },
        holds: Holds {
            blocked_until: [never; 17],
            hold_all: [true; 17],
        },
    }
}

fn db_of(set: u8, db: f32) -> MaybeDb {
    MaybeDb {
        set: set == 1,
        db: db,
    }
}

fn class_of(echo: u8, doppler: u8) -> ChanClass {
    ChanClass {
        echo: echo == 1,
        doppler: doppler == 1,
    }
}

// What the gear makes of an ack, or else of a turn.
fn judge(cfg: Profile, g: Gear, ack: bool, burst: Outcome, snr_db: f32, wave: u8, now: f64) -> Gear
    requires { Ranged cfg }
{
    if g.level > 16 {
        return g;
    }
    if ack {
        return g.on_ack(cfg, burst, snr_db, now);
    }
    g.on_turn(cfg, burst, snr_db, wave, now)
}

// What the gear makes of a reply. The class is the sender's to keep.
fn step(cfg: Profile, mut g: Gear, a: &[u8; 60]) -> Gear
    requires { Ranged cfg }
{
    let class = class_of(a[1], a[2]);
    let burst = Outcome {
        empty: a[4] == 1,
        fresh: a[5] == 1,
        matched: a[6] == 1,
        sent: a[7],
        got: a[8],
    };
    let snr_db = f32_at(a, 16);
    let now = f64_at(a, 20);
    if a[0] == 1 {
        return g.connect(cfg, class, a[3] == 1, snr_db, now);
    }
    g.peer_class = class;
    judge(cfg, g, a[0] == 2, burst, snr_db, a[9], now)
}

// The original's fields after the reply, but for the levels.
fn wanted(mut want: Gear, a: &[u8; 60]) -> Gear {
    let reports = Reports {
        count: a[13],
        a: f32_at(a, 44),
        b: f32_at(a, 48),
        c: f32_at(a, 52),
    };
    let aim = db_of(a[14], f32_at(a, 36));
    let last = db_of(a[15], f32_at(a, 40));
    let class = class_of(a[56], a[57]);
    let burst_s = f64_at(a, 28);
    let level = usize::from(a[11]);
    let target = usize::from(a[12]);
    let cue = a[58] == 1;
    want.level = level;
    want.target = target;
    want.burst_s = burst_s;
    want.aim_db = aim;
    want.last_report_db = last;
    want.snr_reports = reports;
    want.peer_class = class;
    want.cue = cue;
    want
}

fn tries_at(mut t: Tries, k: usize, a: &[u8; 24]) -> Tries
    requires { k < 17 }
{
    let share = f32_at(a, 4);
    let at = f64_at(a, 8);
    t.tried[k] = a[1] == 1;
    t.success[k] = share;
    t.success_at[k] = at;
    t.fails[k] = a[2];
    t
}

fn holds_at(mut h: Holds, k: usize, a: &[u8; 24]) -> Holds
    requires { k < 17 }
{
    let end = f64_at(a, 16);
    h.blocked_until[k] = end;
    h.hold_all[k] = a[3] == 1;
    h
}

// A level that the reply changed.
fn with_level(mut want: Gear, a: &[u8; 24]) -> Gear {
    let k = usize::from(a[0]);
    if k < 17 {
        let t = tries_at(want.tries, k, a);
        let h = holds_at(want.holds, k, a);
        want.tries = t;
        want.holds = h;
        return want;
    }
    want
}

fn with_levels(input: &mut impl Read, want: Gear, n: u8) -> io::Result<Gear> {
    let mut out = want;
    for _ in 0..n {
        let a = next::<24>(input)?;
        out = with_level(out, &a);
    }
    Ok(out)
}

// The kind of a reply.
fn kind_of(tag: u8, empty: bool, fresh: bool, own: bool) -> Kind {
    match tag {
        1 => Kind::Connect,
        2 if empty => Kind::Empty,
        2 if !own => Kind::Unmatched,
        2 if fresh => Kind::Matched,
        2 => Kind::Increments,
        _ if empty => Kind::QuietTurn,
        _ => Kind::Turn,
    }
}

// One reply more, of its kind.
fn counted(mut c: Counts, goodput: bool, kind: Kind) -> Counts {
    if goodput {
        c.goodput = more(c.goodput);
    } else {
        c.ladder = more(c.ladder);
    }
    match kind {
        Kind::Connect => c.connects = more(c.connects),
        Kind::Matched => c.matched = more(c.matched),
        Kind::Unmatched => c.unmatched = more(c.unmatched),
        Kind::Increments => c.increments = more(c.increments),
        Kind::Empty => c.empty = more(c.empty),
        Kind::Turn => c.turns = more(c.turns),
        Kind::QuietTurn => c.quiet_turns = more(c.quiet_turns),
    }
    c
}

fn say(rt: &impl Print, text: &str, n: u64) -> io::Result<()> {
    print!(rt; "{text}{n}")
}

// A difference is written: where it is, and the field.
fn noted(rt: &impl Print, mut c: Counts, reply: u32, field: Option<usize>) -> io::Result<Counts> {
    if let Some(field) = field {
        let profile = c.profiles;
        println!(rt; "profile {profile}, reply {reply}: field {field} differs")?;
        c.differences = more(c.differences);
    }
    Ok(c)
}

// The original's record, and the counts.
#[derive(Clone, Copy)]
pub struct Run {
    pub want: Gear,
    pub counts: Counts,
}

// One reply, from the original's record.
fn reply(rt: &impl Print, input: &mut impl Read, cfg: Profile, run: Run, i: u32) -> io::Result<Run>
    requires { Ranged cfg }
{
    let a = next::<60>(input)?;
    let g = step(cfg, run.want, &a);
    let want = with_levels(input, wanted(run.want, &a), a[10])?;
    let kind = kind_of(a[0], a[4] == 1, a[5] == 1, a[6] == 1);
    let counts = counted(run.counts, cfg.goodput, kind);
    let counts = noted(rt, counts, i, differing(g, want))?;
    Ok(Run { want, counts })
}

// The replies of a profile.
fn replies(
    rt: &impl Print,
    input: &mut impl Read,
    cfg: Profile,
    c: Counts,
    n: u32,
) -> io::Result<Counts>
    requires { Ranged cfg }
{
    let mut run = Run {
        want: fresh(cfg),
        counts: c,
    };
    for i in 0..n {
        run = reply(rt, input, cfg, run, i)?;
    }
    Ok(run.counts)
}

fn print_counts(rt: &impl Print, c: Counts) -> io::Result<()> {
    say(rt, "profiles: ", c.profiles)?;
    say(rt, "\nreplies in goodput: ", c.goodput)?;
    say(rt, "\nreplies in ladder: ", c.ladder)?;
    say(rt, "\nconnect answers: ", c.connects)?;
    say(rt, "\nacks with the burst's number: ", c.matched)?;
    say(rt, "\nacks with another number: ", c.unmatched)?;
    say(rt, "\nacks of increments only: ", c.increments)?;
    say(rt, "\nacks of an empty burst: ", c.empty)?;
    say(rt, "\nturns with a burst outstanding: ", c.turns)?;
    say(rt, "\nturns without: ", c.quiet_turns)?;
    say(rt, "\ndifferences: ", c.differences)?;
    println!(rt; "")
}

// A profile and its replies.
fn profile(
    rt: &impl Print,
    input: &mut impl Read,
    c: Counts,
    a: &[u8; 1172],
) -> io::Result<Counts> {
    let v = table_of(a);
    let cfg = profile_of(&v);
    if config::ranges::in_range(cfg) {
        return replies(rt, input, cfg, c, u32::load(a, 1168));
    }
    println!(rt; "a profile is out of range")?;
    Ok(c)
}

fn main(rt: HostRuntime) -> io::Result<()> {
    let mut input = rt.stdin();
    let mut c = Counts::default();
    for _ in 0..1000000 {
        let mut a = [0u8; 1172];
        if read_full(&mut input, &mut a)? < 1172 {
            break;
        }
        c.profiles = more(c.profiles);
        c = profile(&rt, &mut input, c, &a)?;
    }
    print_counts(&rt, c)
}
