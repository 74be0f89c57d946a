// The first words of calls.
ghost use Rattle.std.specs.Prelude.{◌≡◌};
ghost use Rattle.call_lines.specs.Names.{or_call, no_name, asking, call_of};

use words::{Read, word};

// The calls, those first that a queuing or a reply makes.
#[derive(Clone, Copy, PartialEq, Eq)]
pub enum Call {
    Connect,
    Queue,
    Short,
    Long,
    Turn,
    Burst,
    Piece,
    Log,
    State,
    Area,
    Out,
    Levels,
    Messages,
    Card,
    Frames,
}

// A line's call, if its first word names one, and how far the line was read.
#[derive(Clone, Copy)]
pub struct Named {
    pub call: Option<Call>,
    pub read: Read,
}

// `call`, where the first word is `name` and was no name before.
#[tactic(auto, unfolding(crate::specs::Names::or_call))]
fn or(n: Named, line: &[u8], name: &[u8], call: Call) -> Named
    ensures { result ≡ or_call n line.now name.now call }
{
    if n.call.is_some() {
        return n;
    }
    let read = word(line, name);
    if read.ok {
        return Named {
            call: Some(call),
            read,
        };
    }
    n
}

fn no_name() -> Named
    ensures { result ≡ no_name }
{
    Named {
        call: None,
        read: Read {
            at: 0,
            ok: false,
            value: 0,
        },
    }
}

// A queuing or a reply.
fn asking(line: &[u8]) -> Named
    ensures { result ≡ asking line.now }
{
    let n = no_name();
    let n = or(n, line, b"short", Call::Short);
    let n = or(n, line, b"queue", Call::Queue);
    let n = or(n, line, b"long", Call::Long);
    let n = or(n, line, b"turn", Call::Turn);
    let n = or(n, line, b"frames", Call::Frames);
    or(n, line, b"connect", Call::Connect)
}

// The call that a line names.
pub fn call_of(line: &[u8]) -> Named
    ensures { result ≡ call_of line.now }
{
    let n = asking(line);
    let n = or(n, line, b"burst", Call::Burst);
    let n = or(n, line, b"piece", Call::Piece);
    let n = or(n, line, b"log", Call::Log);
    let n = or(n, line, b"state", Call::State);
    let n = or(n, line, b"area", Call::Area);
    let n = or(n, line, b"out", Call::Out);
    let n = or(n, line, b"levels", Call::Levels);
    let n = or(n, line, b"messages", Call::Messages);
    or(n, line, b"card", Call::Card)
}
