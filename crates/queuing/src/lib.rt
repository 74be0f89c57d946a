// The record of a station: the sender, and the messages of which bytes wait (document 02, Changes 1 and 6); what a queuing leaves.
#![tactic(auto)]

ghost use Rattle.std.specs.Prelude.{◌≡◌, ◌+◌, ◌≤◌, length, drop};
ghost use Rattle.laws.specs.Bytes.{overwrite};
ghost use Rattle.limits.specs.Limits.{max_messages, max_taken};
ghost use Rattle.messages.specs.Messages.{entries_in, total_left, begun_in};
ghost use Rattle.messages.specs.MessagesCode.{stay_in};
ghost use Rattle.queuing.specs.Station.{fresh_station};
ghost use Rattle.queuing.specs.StationCode.{Space, Room, stay_bytes, stayed_in, put_waiting, put_area, queued_waiting};

use byte_copy::{insert_in, shift_left};
use messages::{Messages, insert, place, withdraw, withdraws};
use record::Sender;

#[repr(C)]
#[derive(Clone, Copy)]
pub struct Station {
    pub sender: Sender,
    pub messages: Messages,
}

// What a queuing leaves of the record beside what it leaves alone: the messages, and how many bytes wait.
#[derive(Clone, Copy)]
pub struct Waiting {
    pub messages: Messages,
    pub waiting: u32,
}

// The record of a new station.
pub fn fresh() -> Station
    ensures { result ≡ fresh_station }
{
    let sender = record::fresh();
    let messages = messages::none();
    Station { sender, messages }
}

// The waiting bytes of the messages that a label does not withdraw, put together from `first` on: how many they are.
fn close_gaps(m: Messages, a: &mut [u8], first: usize, label: u16) -> usize
    requires { (m.n ≤ max_messages) × (first + total_left (entries_in m) ≤ length a.old) }
    ensures value { result ≡ total_left (stay_in label (begun_in m) (entries_in m)) }
    ensures a_after { a.new ≡ overwrite a.old first (stay_bytes label m (drop first a.old)) }
{
    let n = m.n;
    let mut begun = m.begun;
    let mut to = first;
    let mut from = first;
    for i in 0..n {
        let l = m.left[i] as usize;
        let b = m.label[i];
        if begun | !withdraws(label, b) {
            shift_left(a, from, to, l);
            to += l;
        }
        from += l;
        begun = false;
    }
    to - first
}

// What waits once the messages that a label withdraws are gone, where `flying` bytes stand before them. No label withdraws none.
fn withdrawn(m: Messages, flying: u32, waiting: u32, a: &mut [u8], label: u16) -> Waiting
    requires n_le_max_messages { m.n ≤ max_messages }
    requires m_in_bounds { flying + total_left (entries_in m) ≤ length a.old }
    requires m_bound { m.withdrawn + total_left (entries_in m) ≤ max_taken }
    ensures { (result, a.new) ≡ stayed_in label m flying waiting a.old }
{
    if label == 0 {
        return Waiting {
            messages: m,
            waiting,
        };
    }
    let first = flying as usize;
    let n = close_gaps(m, a, first, label);
    let messages = withdraw(m, label);
    Waiting {
        messages,
        waiting: n as u32,
    }
}

// Bytes to send, as one message of this class and label, behind those of its class and of lower ones.
fn put_in(
    m: Messages,
    flying: u32,
    waiting: u32,
    a: &mut [u8],
    class: u8,
    label: u16,
    bytes: &[u8],
) -> Waiting
    requires { Room m flying waiting a.old (length bytes.now) }
    ensures value { result ≡ put_waiting class label (length bytes.now) m waiting }
    ensures a_after { a.new ≡ put_area class bytes.now m flying waiting a.old }
{
    let n = bytes.len();
    let at = place(m, class);
    let first = flying as usize;
    let end = first + waiting as usize;
    let from = first + at.bytes;
    insert_in(a, from, end, bytes);
    let messages = insert(m, at.row, n as u16, class, label);
    Waiting {
        messages,
        waiting: waiting + n as u32,
    }
}

// Bytes to send, as one message of this class and label: the waiting ones with its label that have not begun are withdrawn. No bytes make no
// message and withdraw none. `flying` bytes of the work area stand before those that wait.
pub fn enqueue(
    m: Messages,
    flying: u32,
    waiting: u32,
    a: &mut [u8],
    class: u8,
    label: u16,
    bytes: &[u8],
) -> Waiting
    requires { Space m flying waiting a.old label (length bytes.now) }
    ensures { (result, a.new) ≡ queued_waiting class label bytes.now m flying waiting a.old }
{
    if bytes.len() == 0 {
        return Waiting {
            messages: m,
            waiting,
        };
    }
    let w = withdrawn(m, flying, waiting, a, label);
    put_in(w.messages, flying, w.waiting, a, class, label, bytes)
}
