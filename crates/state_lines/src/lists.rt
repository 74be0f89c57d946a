// The lines of `state` that are lists: pieces in flight, held pieces, and the outstanding burst.
ghost use Rattle.std.specs.Prelude.{◌≡◌, ◌++◌, ◌+◌, ◌≤◌, length, take, drop};
ghost use Rattle.text.specs.Buffer.{each};
ghost use Rattle.text.specs.Text.{Puts};
ghost use Rattle.text.specs.Words.{after_colon};
ghost use Rattle.area.specs.Layout.{place};
ghost use Rattle.area.specs.Table.{row_at, rows_from};
ghost use Rattle.pieces.specs.Lists.{held_of, sent_of};
ghost use Rattle.state_lines.specs.State.{rows_in, entry, piece_word, pieces_line, held_word, held_line, rest_line, sent_word, sent_line};

use byte_copy::Little;
use limits::STREAM_BYTES;
use record::{AtPeer, LastBurst};
use text::Text;

// N:N.
fn entry(t: &mut Text, a: u32, b: u32)
    ensures { Puts t.old (entry a b) t.new }
{
    t.number(a as u64);
    t.after_colon(b as u64);
}

// Row i of the table in the area.
fn row(t: &mut Text, area: &[u8], i: usize)
    requires { place i + 8 ≤ length area.now }
    ensures { Puts t.old (piece_word (row_at area.now i)) t.new }
{
    let at = STREAM_BYTES + 8 * i;
    entry(t, u32::load(area, at), u32::load(area, at + 4));
}

// How many rows the area has room for.
fn rows_in(area: &[u8]) -> usize
    ensures { result ≡ rows_in area.now }
{
    area.len().saturating_sub(STREAM_BYTES) / 8
}

fn rows(t: &mut Text, area: &[u8], count: usize)
    requires { count ≤ rows_in area.now }
    ensures { Puts t.old (each piece_word (rows_from area.now 0 count)) t.new }
{
    for i in 0..count {
        row(t, area, i);
    }
}

pub(crate) fn pieces(t: &mut Text, area: &[u8], count: usize)
    ensures { Puts t.old (pieces_line area.now count) t.new }
{
    t.puts(b"pieces");
    t.number(count as u64);
    rows(t, area, count.min(rows_in(area)));
    t.puts(b"\n");
}

// The held pieces from one on, up to another.
fn held_from(t: &mut Text, off: &[u32], bits: &[u32], from: usize, to: usize)
    ensures { Puts t.old (each held_word (drop from (held_of (take to off.now) (take to bits.now)))) t.new }
{
    for i in from..to.min(off.len()).min(bits.len()) {
        entry(t, off[i], bits[i]);
    }
}

pub(crate) fn held(t: &mut Text, h: AtPeer, wave: u8)
    ensures { Puts t.old (held_line h wave) t.new }
{
    let off = h.off;
    let bits = h.bits;
    t.puts(b"held");
    t.number(h.n as u64);
    t.number(wave as u64);
    held_from(t, &off, &bits, 0, h.n);
    t.puts(b"\n");
}

// The last of them that are not sent yet.
pub(crate) fn rest(t: &mut Text, h: AtPeer)
    ensures { Puts t.old (rest_line h) t.new }
{
    let off = h.off;
    let bits = h.bits;
    t.puts(b"rest");
    t.number(h.rest as u64);
    held_from(t, &off, &bits, h.n.saturating_sub(h.rest), h.n);
    t.puts(b"\n");
}

// N:N:N.
pub(crate) fn long_entry(t: &mut Text, a: u32, b: u32, c: u32)
    ensures { Puts t.old (entry a b ++ after_colon c) t.new }
{
    entry(t, a, b);
    t.after_colon(c as u64);
}

// The first `to` frames.
fn sent_frames(t: &mut Text, off: &[u32], bits: &[u32], held: &[u32], to: usize)
    ensures { Puts t.old (each sent_word (sent_of (take to off.now) (take to bits.now) (take to held.now))) t.new }
{
    for i in 0..to.min(off.len()).min(bits.len()).min(held.len()) {
        long_entry(t, off[i], bits[i], held[i]);
    }
}

pub(crate) fn sent(t: &mut Text, b: LastBurst)
    ensures { Puts t.old (sent_line b) t.new }
{
    let off = b.off;
    let bits = b.bits;
    let held = b.held;
    t.puts(b"sent");
    t.number(b.n as u64);
    sent_frames(t, &off, &bits, &held, b.n);
    t.puts(b"\n");
}
