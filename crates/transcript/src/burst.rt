// A burst's answer: its line, and a line for each frame.
ghost use Rattle.std.specs.Prelude.{◌≡◌, ◌≤◌};
ghost use Rattle.laws.specs.Span.{upto};
ghost use Rattle.limits.specs.Limits.{max_slots};
ghost use Rattle.text.specs.Buffer.{appended, each};
ghost use Rattle.text.specs.Text.{Puts};
ghost use Rattle.transcript.specs.Answers.{burst_line, frame_line, frame_entry, burst_lines};

use limits::MAX_SLOTS;
use outgoing::{Frames, Outgoing};
use text::Text;

fn line(t: &mut Text, b: Outgoing)
    ensures { Puts t.old (burst_line b) t.new }
{
    let f = b.frames;
    t.puts(b"burst ok");
    t.number(b.wave as u64);
    t.number(b.code as u64);
    t.number(b.user as u64);
    t.number(b.extra as u64);
    t.flag(b.cue);
    t.flag(b.td_ease);
    t.number(f.n as u64);
    t.puts(b"\n");
}

fn frame(t: &mut Text, off: u32, len: u32, start: u32, bits: u32, bytes: &[u8])
    ensures { Puts t.old (frame_line off len start bits bytes.now) t.new }
{
    t.puts(b"frame");
    t.number(off as u64);
    t.number(len as u64);
    t.number(start as u64);
    t.number(bits as u64);
    t.hex(bytes);
    t.puts(b"\n");
}

// The lines of the first `count` frames.
fn frames(t: &mut Text, f: Frames, count: usize, size: usize, out: &[u8])
    requires { count ≤ max_slots }
    ensures { Puts t.old (each (frame_entry f size out.now) (upto 0 count)) t.new }
{
    let mut from: usize = 0;
    for i in 0..count {
        let to = from.saturating_add(size).min(out.len());
        frame(t, f.off[i], f.len[i], f.start[i], f.bits[i], &out[from..to]);
        from = to;
    }
}

// The answer to a burst, whose frames of `size` bytes stand in the output one after the other.
pub fn burst(t: &mut [u8], n: usize, b: Outgoing, size: usize, out: &[u8]) -> usize
    ensures { (result, t.new) ≡ appended (n, t.old) (burst_lines b size out.now) }
{
    let f = b.frames;
    let mut t = Text { bytes: t, len: n };
    line(&mut t, b);
    frames(&mut t, f, f.n.min(MAX_SLOTS), size, out);
    t.len
}
