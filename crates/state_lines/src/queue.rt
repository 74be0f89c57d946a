// The line `messages`: the messages that wait, in the order of going (document 02, Changes 1 and 6).
ghost use Rattle.std.specs.Prelude.{◌≡◌, ◌<◌, ◌≤◌};
ghost use Rattle.limits.specs.Limits.{max_messages};
ghost use Rattle.text.specs.Buffer.{appended, each};
ghost use Rattle.text.specs.Text.{Puts};
ghost use Rattle.messages.specs.Messages.{entry_in_row, entries_from};
ghost use Rattle.state_lines.specs.Queue.{message_word, messages_line};

use crate::lists::long_entry;
use limits::MAX_MESSAGES;
use messages::Messages;
use text::Text;

// Row i.
fn row(t: &mut Text, m: Messages, i: usize)
    requires { i < max_messages }
    ensures { Puts t.old (message_word (entry_in_row m i)) t.new }
{
    long_entry(t, m.class[i] as u32, m.label[i] as u32, m.left[i] as u32);
}

// The first `count` rows.
fn rows(t: &mut Text, m: Messages, count: usize)
    requires { count ≤ max_messages }
    ensures { Puts t.old (each message_word (entries_from m 0 count)) t.new }
{
    for i in 0..count {
        row(t, m, i);
    }
}

// The whole answer.
pub fn messages(t: &mut [u8], n: usize, m: Messages) -> usize
    ensures { (result, t.new) ≡ appended (n, t.old) (messages_line m) }
{
    let mut t = Text { bytes: t, len: n };
    t.puts(b"messages");
    t.number(m.n as u64);
    t.flag(m.begun & (0 < m.n));
    t.number(m.withdrawn as u64);
    rows(&mut t, m, m.n.min(MAX_MESSAGES));
    t.puts(b"\n");
    t.len
}
