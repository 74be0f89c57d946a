// The answer to `levels`: each level within reach, with the lowest report that gives it.
ghost use Rattle.std.specs.Prelude.{◌≡◌, ◌≤◌};
ghost use Rattle.laws.specs.Span.{upto};
ghost use Rattle.text.specs.Buffer.{appended, each};
ghost use Rattle.text.specs.Text.{Puts};
ghost use Rattle.transcript.specs.Answers.{level_word, level_entry, levels_line};

use reachable::Listing;
use text::Text;

fn entry(t: &mut Text, level: u8, q: u8)
    ensures { Puts t.old (level_word level q) t.new }
{
    t.number(level as u64);
    t.after_colon(q as u64);
}

// The first `count` places.
fn entries(t: &mut Text, found: Listing, count: usize)
    requires { count ≤ 17 }
    ensures { Puts t.old (each (level_entry found) (upto 0 count)) t.new }
{
    for i in 0..count {
        entry(t, found.level[i], found.q[i]);
    }
}

// The levels of a listing that is not refused.
pub fn levels(t: &mut [u8], n: usize, found: Listing) -> usize
    ensures { (result, t.new) ≡ appended (n, t.old) (levels_line found) }
{
    let mut t = Text { bytes: t, len: n };
    t.puts(b"levels ok");
    entries(&mut t, found, found.n.min(17));
    t.puts(b"\n");
    t.len
}
