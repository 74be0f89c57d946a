// A line of a call list, where it does not ask the sender: the box's lines (docs/CALLS.md, The box), and those of `run_lines`. Lent
// beside the run: w, the box's window; h, the bytes of the frames heard; sent, the last burst's frames; t, the transcript's buffer; l, the
// line that is to ask; v, the numbers of the profile's lines; file, the file that stands for them.
#![tactic(auto)]

ghost use Rattle.std.specs.Prelude.{◌≡◌};
ghost use Rattle.run_lines.specs.RunLines.{zeros};
ghost use Rattle.line_steps.specs.LineSteps.{box_standing, burst_noted, box_before, reply_as_long, listened_step, box_asked, box_or_not};
ghost use Rattle.line_steps.specs.LineSteps.{box_step, line_step};

use box_calls::{Box, burst_sent, listen, reply_line};
use run_lines::{Run, Todo, Told, is_box, left, looked_at, quiet, to_ask};
use words::word;

// The run and the box after a line.
#[derive(Clone, Copy)]
pub struct RunAndBox {
    pub run: Run,
    pub next: Box,
}

// A window of zeros.
fn clear(w: &mut [u16])
    ensures { w.new ≡ zeros w.old }
{
    w.fill(0);
}

// The box, or a fresh one, where one is to start.
fn standing(anew: bool, b: Box, w: &mut [u16]) -> Box
    ensures { (result, w.new) ≡ box_standing anew b w.old }
{
    if anew {
        clear(w);
        return box_calls::fresh();
    }
    b
}

// The box, which knows the last burst: one that is not refused has another number than the one before.
fn noted(run: Run, s: Told, b: Box, out: &[u8], sent: &mut [u8]) -> Box
    ensures { (result, sent.new) ≡ burst_noted run s b out.now sent.old }
{
    if s.number != run.number {
        return burst_sent(b, s.number, s.frames, run.size, out, sent);
    }
    b
}

// The box as it stands before a line.
fn box_now(run: Run, s: Told, b: Box, w: &mut [u16], out: &[u8], sent: &mut [u8]) -> Box
    ensures { (result, (w.new, sent.new))
        ≡ box_before run s b w.old out.now sent.old }
{
    let b = noted(run, s, b, out, sent);
    standing(run.anew, b, w)
}

// A line `reply` with the box's answer behind its words, in `l`: how many characters it has; none where the line is another, or there is no
// answer.
fn replied(line: &[u8], b: Box, l: &mut [u8]) -> usize
    ensures { (result, l.new) ≡ reply_as_long line.now b l.old }
{
    let r = word(line, b"reply");
    if r.ok {
        return reply_line(line, b, l);
    }
    0
}

// A line of the box, asked of it.
fn listened(
    line: &[u8],
    run: Run,
    b: Box,
    w: &mut [u16],
    h: &mut [u8],
    sent: &[u8],
    t: &mut [u8],
) -> RunAndBox
    ensures { (result, (w.new, (h.new, t.new)))
        ≡ listened_step line.now run b w.old h.old sent.now t.old }
{
    let q = listen(line, b, run.out, w, h, sent, t, run.text);
    let run = left(run, q.ok, q.text);
    let next = q.next;
    RunAndBox { run, next }
}

// A line that is the box's: `reply` is to ask the sender, any other is asked of the box.
fn box_asked(
    line: &[u8],
    run: Run,
    b: Box,
    w: &mut [u16],
    h: &mut [u8],
    sent: &[u8],
    t: &mut [u8],
    l: &mut [u8],
) -> RunAndBox
    ensures { (result, (w.new, (h.new, (t.new, l.new))))
        ≡ box_asked line.now run b w.old h.old sent.now t.old l.old }
{
    let k = replied(line, b, l);
    if 0 < k {
        let run = to_ask(run, Todo::Asks, k);
        return RunAndBox { run, next: b };
    }
    listened(line, run, b, w, h, sent, t)
}

// Any line, once the run has it.
fn box_or_not(
    line: &[u8],
    run: Run,
    b: Box,
    w: &mut [u16],
    h: &mut [u8],
    sent: &[u8],
    t: &mut [u8],
    l: &mut [u8],
) -> RunAndBox
    ensures { (result, (w.new, (h.new, (t.new, l.new))))
        ≡ box_or_not line.now run b w.old h.old sent.now t.old l.old }
{
    if !is_box(line, run) {
        return RunAndBox { run, next: b };
    }
    box_asked(line, run, b, w, h, sent, t, l)
}

// A line, where it is the box's, and the box as it stands before it. out: the output, which has the last burst's frames.
fn boxed(
    line: &[u8],
    run: Run,
    s: Told,
    b: Box,
    w: &mut [u16],
    h: &mut [u8],
    sent: &mut [u8],
    out: &[u8],
    t: &mut [u8],
    l: &mut [u8],
) -> RunAndBox
    ensures { (result, (sent.new, (w.new, (h.new, (t.new, l.new)))))
        ≡ box_step line.now run s b w.old h.old sent.old out.now t.old
        l.old }
{
    let b = box_now(run, s, b, w, out, sent);
    box_or_not(line, looked_at(run, s.number), b, w, h, sent, t, l)
}

// A line, where it does not ask the sender, and the box after it. s: what is told of the sender.
pub fn line_step(
    line: &[u8],
    run: Run,
    s: Told,
    b: Box,
    area: &mut [u8],
    out: &[u8],
    t: &mut [u8],
    v: &mut [u64; 146],
    file: &mut [u8],
    l: &mut [u8],
    w: &mut [u16],
    h: &mut [u8],
    sent: &mut [u8],
) -> RunAndBox
    ensures { (
      result,
      (
        (area.new, (t.new, (v.new, (file.new, l.new)))),
        (w.new, (h.new, sent.new)),
      ),
    )
        ≡ line_step line.now run s b area.old out.now t.old v.old
        file.old l.old w.old h.old sent.old }
{
    let x = boxed(line, run, s, b, w, h, sent, out, t, l);
    let run = quiet(line, x.run, s, area, t, v, file, l);
    let next = x.next;
    RunAndBox { run, next }
}
