// The lines of a call list that ask the sender or show something (docs/CALLS.md, Calls), by the run of the list: what is to do about a
// line, and how much of the work area and of the output is lent.
#![tactic(auto)]

ghost use Rattle.std.specs.Prelude.{◌≡◌};
ghost use Rattle.run_lines.specs.RunLines.{zeros};
ghost use Rattle.asked_lines.specs.AskedLines.{sender_left, done_said, line_call, shown_said, showed_of, asked_out, asked_of, called_of};
ghost use Rattle.asked_lines.specs.AskedLines.{answered_of};

use byte_copy::least;
use call_lines::names::{Call, Named, call_of};
use config::Profile;
use list_calls::answers::{Said, say};
use look_lines::look;
use queuing::Station;
use run_lines::{Run, Todo, profile_now};
use sender::fresh;
use words::word;

// The sender's record, or a fresh one.
fn sender_left(anew: bool, s: Station) -> Station
    ensures { result ≡ sender_left anew s }
{
    if anew {
        return fresh();
    }
    s
}

// What a line left that is done.
#[tactic(auto, unfolding(crate::specs::AskedLines::done_said))]
fn kept(run: Run, s: Station) -> Said
    ensures { result ≡ done_said run s }
{
    Said {
        ok: run.ok,
        text: run.text,
        next: sender_left(run.todo == Todo::Anew, s),
    }
}

// `reply` asks as a long ack does.
fn named(line: &[u8]) -> Named
    ensures { result ≡ line_call line.now }
{
    let r = word(line, b"reply");
    if r.ok {
        return Named {
            call: Some(Call::Long),
            read: r,
        };
    }
    call_of(line)
}

// A line that shows something. out: what is lent of the output.
fn shown(
    call: Named,
    line: &[u8],
    p: Profile,
    s: Station,
    area: &[u8],
    out: &mut [u8],
    t: &mut [u8],
    n: usize,
) -> Said
    ensures { (result, (out.new, t.new))
        ≡ shown_said call line.now p s area.now out.old (n, t.old) }
{
    let q = look(call, line, p, s, area, out, t, n);
    Said {
        ok: q.ok,
        text: q.text,
        next: s,
    }
}

// The same, of which `most` bytes are lent.
fn showed(
    call: Named,
    line: &[u8],
    p: Profile,
    s: Station,
    area: &[u8],
    most: usize,
    out: &mut [u8],
    t: &mut [u8],
    n: usize,
) -> Said
    ensures { (result, (out.new, t.new))
        ≡ showed_of call line.now p s area.now most out.old (n, t.old) }
{
    let k = least(most, out);
    shown(call, line, p, s, area, &mut out[..k], t, n)
}

// A line that asks the sender, with `most` bytes of the output lent. area: what is lent of the work area.
fn asked_out(
    call: Named,
    line: &[u8],
    p: Profile,
    s: Station,
    area: &mut [u8],
    most: usize,
    out: &mut [u8],
    t: &mut [u8],
    n: usize,
) -> Said
    ensures { (result, (area.new, (out.new, t.new)))
        ≡ asked_out call line.now p s area.old most out.old (n, t.old) }
{
    let k = least(most, out);
    say(call, line, p, s, area, &mut out[..k], t, n)
}

// The same, with so many bytes of the work area lent as the run says.
fn asked(
    call: Named,
    line: &[u8],
    run: Run,
    p: Profile,
    s: Station,
    area: &mut [u8],
    out: &mut [u8],
    t: &mut [u8],
) -> Said
    ensures { (result, (area.new, (out.new, t.new)))
        ≡ asked_of call line.now run p s area.old out.old t.old }
{
    let k = least(run.area, area);
    asked_out(call, line, p, s, &mut area[..k], run.out, out, t, run.text)
}

// Zeros.
fn clear(out: &mut [u8])
    ensures { out.new ≡ zeros out.old }
{
    out.fill(0);
}

// A call, under the profile p: the output is zeros before it.
#[tactic(auto, unfolding(crate::specs::AskedLines::called_of))]
fn called(
    line: &[u8],
    run: Run,
    p: Profile,
    s: Station,
    area: &mut [u8],
    out: &mut [u8],
    t: &mut [u8],
) -> Said
    ensures { (result, (area.new, (out.new, t.new)))
        ≡ called_of line.now run p s area.old out.old t.old }
{
    let call = named(line);
    clear(out);
    if run.todo == Todo::Shows {
        return showed(call, line, p, s, area, run.out, out, t, run.text);
    }
    asked(call, line, run, p, s, area, out, t)
}

// What a line leaves that the run has looked at: the sender's record and the transcript.
#[tactic(auto, unfolding(crate::specs::AskedLines::answered_of))]
pub fn answered(
    line: &[u8],
    run: Run,
    s: Station,
    area: &mut [u8],
    out: &mut [u8],
    t: &mut [u8],
    v: &[u64; 146],
    file: &[u8],
) -> Said
    ensures { (result, (area.new, (out.new, t.new)))
        ≡ answered_of line.now run s area.old out.old t.old v.now
        file.now }
{
    match run.todo {
        Todo::New | Todo::Done | Todo::Anew => kept(run, s),
        _ => called(line, run, profile_now(run, v, file), s, area, out, t),
    }
}
