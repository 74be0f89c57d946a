// The lines of a transcript that tell the sender's state (docs/CALLS.md): those of `state`, `messages` and `end`. As in `transcript`, a lent buffer
// has n bytes that are used, and each function gives what is used then.
#![tactic(auto)]

ghost use Rattle.std.specs.Prelude.{◌≡◌, ◌<◌};
ghost use Rattle.laws.specs.Span.{upto};
ghost use Rattle.text.specs.Buffer.{appended, each};
ghost use Rattle.text.specs.Text.{Puts};
ghost use Rattle.text.specs.Words.{single_word};
ghost use Rattle.state_lines.specs.State.{tally_words, end_line, state_line, link_line, word_if, reports, aim_line, gear_line, gear_of};
ghost use Rattle.state_lines.specs.State.{counts_line, state_lines};

use gear::Gear;
use levels::memory::Reports;
use lists::{held, pieces, rest, sent};
use record::{Counts, Link, Sender};
use text::Text;

mod lists;
pub mod queue;

// TAKEN WAITING FLYING ACKED, where so many bytes were withdrawn.
fn tally(t: &mut Text, c: Counts, withdrawn: u32)
    ensures { Puts t.old (tally_words c withdrawn) t.new }
{
    t.number((c.next_offset as u64) + (c.waiting as u64) + (withdrawn as u64));
    t.number(c.waiting as u64);
    t.number(c.flying as u64);
    t.number(c.bytes_acked as u64);
}

// What closes a profile's calls.
pub fn end(t: &mut [u8], n: usize, c: Counts, withdrawn: u32) -> usize
    ensures { (result, t.new) ≡ appended (n, t.old) (end_line c withdrawn) }
{
    let mut t = Text { bytes: t, len: n };
    t.puts(b"end");
    tally(&mut t, c, withdrawn);
    t.puts(b"\n");
    t.len
}

fn first(t: &mut Text, burst_s: f64, g: Gear, k: Link)
    ensures { Puts t.old (state_line burst_s g k) t.new }
{
    t.puts(b"state");
    t.number(g.level as u64);
    t.number(g.target as u64);
    t.maybe(k.connected.then_some(burst_s));
    t.flag(k.connected);
    t.flag(k.awaiting);
    t.number(k.session as u64);
    t.number(k.burst_id as u64);
    t.maybe(k.heard.then_some(k.peer_heard as u64));
    t.maybe(k.connected.then_some(k.last_time));
    t.puts(b"\n");
}

fn link(t: &mut Text, g: Gear, k: Link)
    ensures { Puts t.old (link_line g k) t.new }
{
    let class = g.peer_class;
    t.puts(b"link");
    t.flag(k.peer_wants_turn);
    t.flag(k.peer_wants_disc);
    t.flag(class.echo);
    t.flag(class.doppler);
    t.number(k.peer_slot as u64);
    t.single(k.peer_doppler_hz);
    t.flag(g.cue);
    t.puts(b"\n");
}

// F32 where a test passes, else nothing.
fn if_set(t: &mut Text, set: bool, x: f32)
    ensures { Puts t.old (word_if set (single_word x)) t.new }
{
    if set {
        t.single(x);
    }
}

fn reports(t: &mut Text, r: Reports)
    ensures { Puts t.old (reports r) t.new }
{
    if_set(t, r.count >= 3, r.a);
    if_set(t, r.count >= 2, r.b);
    if_set(t, r.count >= 1, r.c);
}

fn aim(t: &mut Text, g: Gear)
    ensures { Puts t.old (aim_line g) t.new }
{
    let a = g.aim_db;
    let last = g.last_report_db;
    t.puts(b"aim");
    t.maybe(a.set.then_some(a.db));
    t.maybe(last.set.then_some(last.db));
    reports(t, g.snr_reports);
    t.puts(b"\n");
}

fn gear_line(
    t: &mut Text,
    l: usize,
    tried: bool,
    success: f32,
    at: f64,
    fails: u8,
    until: f64,
    all: bool,
)
    ensures { Puts t.old (gear_line l tried success at fails until all) t.new }
{
    t.puts(b"gear");
    t.number(l as u64);
    t.maybe(tried.then_some(success));
    t.double(at);
    t.number(fails as u64);
    t.double(until);
    t.flag(all);
    t.puts(b"\n");
}

fn level(t: &mut Text, g: Gear, l: usize)
    requires { l < 17 }
    ensures { Puts t.old (gear_of g l) t.new }
{
    let s = g.tries;
    let h = g.holds;
    gear_line(
        t,
        l,
        s.tried[l],
        s.success[l],
        s.success_at[l],
        s.fails[l],
        h.blocked_until[l],
        h.hold_all[l],
    );
}

fn levels(t: &mut Text, g: Gear)
    ensures { Puts t.old (each (gear_of g) (upto 0 17)) t.new }
{
    for l in 0..17 {
        level(t, g, l);
    }
}

fn counts(t: &mut Text, c: Counts, withdrawn: u32)
    ensures { Puts t.old (counts_line c withdrawn) t.new }
{
    t.puts(b"counts");
    tally(t, c, withdrawn);
    t.number(c.airtime_ms);
    t.puts(b"\n");
}

// The whole answer. burst_s: the burst seconds as the gear reads them; withdrawn: the bytes withdrawn.
pub fn state(t: &mut [u8], n: usize, burst_s: f64, s: Sender, withdrawn: u32, area: &[u8]) -> usize
    ensures { (result, t.new) ≡ appended (n, t.old) (state_lines burst_s s withdrawn area.now) }
{
    let mut t = Text { bytes: t, len: n };
    let g = s.gear;
    let k = s.link;
    let c = s.counts;
    let h = s.at_peer;
    first(&mut t, burst_s, g, k);
    link(&mut t, g, k);
    aim(&mut t, g);
    levels(&mut t, g);
    counts(&mut t, c, withdrawn);
    pieces(&mut t, area, c.pieces);
    held(&mut t, h, k.peer_wave);
    rest(&mut t, h);
    sent(&mut t, s.last_burst);
    t.len
}
