// Reads a call list on standard input, makes its calls and writes the transcript on standard output (docs/CALLS.md).
#![tactic(auto)]

mod buffer;
mod input;

ghost use Rattle.std.specs.Prelude.{◌≡◌, ◌≤◌, length, take};

use asked_lines::answered;
use box_calls::Box;
use buffer::{flush, room};
use byte_copy::least;
use input::next_line;
use line_steps::{RunAndBox, line_step};
use list_calls::answers::Said;
use profile_table::LINES;
use queuing::Station;
use run_lines::{Run, Told, left, none_yet};
use sender::fresh;
use std::io;
use std::io::Read;
use words::Input;
use words::taken::Taken;

// What the other lines tell of the sender.
fn told_of(x: State) -> Told {
    let s = sender_of(x);
    let counts = s.sender.counts;
    let frames = (s.sender.last_burst.n % 256) as u8;
    Told {
        counts,
        withdrawn: s.messages.withdrawn,
        number: s.sender.link.burst_id,
        frames,
        level: s.sender.gear.level,
    }
}

// The last line of the transcript. n: how many lines were read, the end of the list counted as one.
fn last_line(run: Run, s: Told, n: u64, t: &mut [u8]) -> usize {
    if !run.ok | (run.stage < LINES) {
        return transcript::error(t, run.text, n);
    }
    state_lines::end(t, run.text, s.counts, s.withdrawn)
}

fn finish(rt: &impl Print, x: State, n: u64, t: &mut [u8]) -> io::Result<()> {
    let k = last_line(run_after(x), told_of(x), n, t);
    flush(rt, t, k)
}

// Before the first line.
fn no_input() -> Input {
    Input {
        at: 0,
        end: 0,
        len: 0,
        kind: Taken::Whole,
    }
}

// How many characters the line has; none where it is not whole.
fn line_length(i: Input, line: &[u8]) -> usize
    ensures upper_bound { result ≤ length line.now }
    ensures value { result ≡ length (take result line.now) }
{
    if i.kind == Taken::Whole {
        return least(i.len, line);
    }
    0
}

// Room for the answer to the next line, if there is one; else the list has ended, or its line breaks the rules.
fn ready(rt: &impl Print, x: State, i: Input, t: &[u8]) -> io::Result<Run> {
    let mut after = run_after(x);
    if i.kind == Taken::Whole {
        after.text = room(rt, t, after.text)?;
        return Ok(after);
    }
    after.ok = i.kind == Taken::End;
    Ok(after)
}

fn no_calls() -> Said {
    Said {
        ok: true,
        text: 0,
        next: fresh(),
    }
}

// What stands between lines: the run and the box, and what the last line left of the sender.
#[derive(Clone, Copy)]
pub struct State {
    pub first: RunAndBox,
    pub said: Said,
}

fn box_of(x: State) -> Box {
    x.first.next
}

fn sender_of(x: State) -> Station {
    x.said.next
}

fn run_of(x: RunAndBox) -> Run {
    x.run
}

// One line.
fn step(
    line: &[u8],
    run: Run,
    x: State,
    area: &mut [u8],
    out: &mut [u8],
    t: &mut [u8],
    v: &mut [u64; 146],
    file: &mut [u8],
    l: &mut [u8],
    w: &mut [u16],
    h: &mut [u8],
    sent: &mut [u8],
) -> State {
    let first = line_step(
        line,
        run,
        told_of(x),
        box_of(x),
        area,
        out,
        t,
        v,
        file,
        l,
        w,
        h,
        sent,
    );
    let run = run_of(first);
    let k = least(run.len, l);
    let said = answered(&l[..k], run, sender_of(x), area, out, t, v, file);
    State { first, said }
}

// The run after a line.
fn run_after(x: State) -> Run {
    left(x.first.run, x.said.ok, x.said.text)
}

// Whether another line is to be read: the list has not ended, and no line broke the rules.
fn goes_on(i: Input, x: State) -> bool {
    (i.kind != Taken::End) & x.said.ok
}

fn before() -> State {
    let first = RunAndBox {
        run: none_yet(),
        next: box_calls::fresh(),
    };
    let said = no_calls();
    State { first, said }
}

fn replay(
    rt: &impl Print,
    input: &mut impl Read,
    chunk: &mut [u8],
    line: &mut [u8],
    area: &mut [u8],
    out: &mut [u8],
    t: &mut [u8],
    file: &mut [u8],
    l: &mut [u8],
    w: &mut [u16],
    h: &mut [u8],
    sent: &mut [u8],
) -> io::Result<()> {
    let mut v = [0u64; 146];
    let mut i = no_input();
    let mut x = before();
    for n in 0..u64::MAX {
        i = next_line(input, chunk, line, i)?;
        let run = ready(rt, x, i, t)?;
        let len = line_length(i, line);
        x = step(
            &line[..len],
            run,
            x,
            area,
            out,
            t,
            &mut v,
            file,
            l,
            w,
            h,
            sent,
        );
        if !goes_on(i, x) {
            return finish(rt, x, n + 1, t);
        }
    }
    finish(rt, x, u64::MAX, t)
}

fn main(rt: HostRuntime) -> io::Result<()> {
    let mut input = rt.stdin();
    let mut chunk = [0u8; 65536];
    let mut line = [0u8; 65536];
    let mut area = [0u8; 65536];
    let mut file = [0u8; 65536];
    let mut out = [0u8; 32768];
    let mut text = [0u8; 131072];
    let mut l = [0u8; 65600];
    let mut w = [0u16; 65536];
    let mut h = [0u8; 65664];
    let mut sent = [0u8; 32768];
    replay(
        &rt, &mut input, &mut chunk, &mut line, &mut area, &mut out, &mut text, &mut file, &mut l,
        &mut w, &mut h, &mut sent,
    )
}
