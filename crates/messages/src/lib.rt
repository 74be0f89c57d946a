// The messages that wait (document 02, Changes 1 and 6), in the order in which they will go.
#![tactic(auto)]

ghost use Rattle.std.specs.Prelude.{◌≡◌, ◌+◌, ◌≤◌, ◌<◌};
ghost use Rattle.limits.specs.Limits.{max_messages, max_taken};
ghost use Rattle.ledger.specs.Queue.{withdraws as withdraws_label};
ghost use Rattle.messages.specs.Messages.{no_messages, begun_in, entry_of, entries_in, store_entries, total_left, messages_ok};
ghost use Rattle.messages.specs.MessagesCode.{place_in, insert_row, superseded_in, withdrawn, gone_in, cut_to, flown};

use limits::{MAX_CLASS, MAX_MESSAGES};

// n messages, each with its class, its label, 0 for none, and the bytes of it that wait. `withdrawn`: bytes of messages withdrawn, in all.
// `begun`: bytes of the first have begun to fly; with no message it says nothing.
// kept: arrays side by side with a count, since it is part of the record that C programs hold, of a fixed size and with no heap.
#[repr(C)]
#[derive(Clone, Copy)]
pub struct Messages {
    pub left: [u16; MAX_MESSAGES],
    pub class: [u8; MAX_MESSAGES],
    pub label: [u16; MAX_MESSAGES],
    pub n: usize,
    pub withdrawn: u32,
    pub begun: bool,
}

// No message.
pub fn none() -> Messages
    ensures { result ≡ no_messages }
{
    Messages {
        left: [0; MAX_MESSAGES],
        class: [0; MAX_MESSAGES],
        label: [0; MAX_MESSAGES],
        n: 0,
        withdrawn: 0,
        begun: false,
    }
}

// Where a new message goes, and how many waiting bytes stand before it.
#[derive(Clone, Copy)]
pub struct Position {
    pub row: usize,
    pub bytes: usize,
}

// How many messages a queuing withdraws, and their bytes.
#[derive(Clone, Copy)]
pub struct Withdrawal {
    pub n: usize,
    pub bytes: u32,
}

// The messages of which all bytes begin to fly, the bytes left of the one behind them, and whether it has begun.
#[derive(Clone, Copy)]
struct Gone {
    rows: usize,
    left: u16,
    begun: bool,
}

// The sound record's clauses about messages.
pub fn messages_ok(m: Messages, waiting: u32) -> bool
    ensures { result ≡ messages_ok waiting m }
{
    if MAX_MESSAGES < m.n {
        return false;
    }
    let n = m.n;
    let mut sum: u32 = 0;
    for i in 0..n {
        let l = m.left[i];
        let c = m.class[i];
        if l == 0 {
            return false;
        }
        if MAX_CLASS < c {
            return false;
        }
        sum += u32::from(l);
    }
    sum == waiting
}

// Behind the begun message, and behind those of its class and of lower ones.
pub fn place(m: Messages, class: u8) -> Position
    requires { m.n ≤ max_messages }
    ensures { result ≡ place_in class 0 0 m.begun (entries_in m) }
{
    let n = m.n;
    let mut begun = m.begun;
    let mut bytes: usize = 0;
    for row in 0..n {
        let c = m.class[row];
        if !begun & (class < c) {
            return Position { row, bytes };
        }
        begun = false;
        bytes += usize::from(m.left[row]);
    }
    Position { row: n, bytes }
}

// A message put in at a row; those from there on move up.
// kept: one loop over the three arrays. With the library's `copy_within`, an array at a time, a queuing behind few messages took a quarter
// more time.
pub fn insert(m: Messages, row: usize, left: u16, class: u8, label: u16) -> Messages
    requires { (row ≤ m.n) × (m.n < max_messages) }
    ensures { result ≡ store_entries (begun_in m) (insert_row row (entry_of left class label) (entries_in m)) m }
{
    let n = m.n;
    let mut out = m;
    for i in row..n {
        let l = m.left[i];
        let c = m.class[i];
        let b = m.label[i];
        out.left[i + 1] = l;
        out.class[i + 1] = c;
        out.label[i + 1] = b;
    }
    out.left[row] = left;
    out.class[row] = class;
    out.label[row] = label;
    out.n = n + 1;
    out.begun = m.begun & (0 < n);
    out
}

// Whether a label withdraws a message of label `of` that has not begun.
pub fn withdraws(label: u16, of: u16) -> bool
    ensures { result ≡ withdraws_label label of }
{
    (label != 0) & (of == label)
}

// What a queuing of n bytes with this label withdraws: the messages with it that have not begun. No bytes, or no label, withdraw none.
pub fn superseded(m: Messages, label: u16, n: usize) -> Withdrawal
    requires { m.n ≤ max_messages }
    ensures { result ≡ superseded_in label n m }
{
    if (n == 0) | (label == 0) {
        return Withdrawal { n: 0, bytes: 0 };
    }
    let rows = m.n;
    let mut gone = 0;
    let mut bytes: u32 = 0;
    let mut begun = m.begun;
    for i in 0..rows {
        let of = m.label[i];
        if !begun & withdraws(label, of) {
            gone += 1;
            bytes += u32::from(m.left[i]);
        }
        begun = false;
    }
    Withdrawal { n: gone, bytes }
}

// The messages that a queuing with this label leaves; the bytes of the others count as withdrawn.
pub fn withdraw(m: Messages, label: u16) -> Messages
    requires { (m.n ≤ max_messages) × (m.withdrawn + total_left (entries_in m) ≤ max_taken) }
    ensures { result ≡ withdrawn label m }
{
    let rows = m.n;
    let mut out = m;
    let mut begun = m.begun;
    let mut to = 0;
    for i in 0..rows {
        let l = m.left[i];
        let c = m.class[i];
        let b = m.label[i];
        if !begun & withdraws(label, b) {
            out.withdrawn += u32::from(l);
        } else {
            out.left[to] = l;
            out.class[to] = c;
            out.label[to] = b;
            to += 1;
        }
        begun = false;
    }
    out.n = to;
    out.begun = m.begun & (0 < rows);
    out
}

// How many messages go whole where k waiting bytes begin to fly.
fn rows_gone(m: Messages, k: u32) -> Gone
    requires { m.n ≤ max_messages }
    ensures { result ≡ gone_in k 0 m.begun (entries_in m) }
{
    let n = m.n;
    let mut begun = m.begun;
    let mut k = k;
    for rows in 0..n {
        let left = m.left[rows];
        if k == 0 {
            return Gone { rows, left, begun };
        }
        if k < u32::from(left) {
            return Gone {
                rows,
                left: left - k as u16,
                begun: true,
            };
        }
        k -= u32::from(left);
        begun = false;
    }
    Gone {
        rows: n,
        left: 0,
        begun: false,
    }
}

// The messages from row `rows` on, of the first of which `left` bytes are left.
fn cut_to(m: Messages, rows: usize, left: u16, begun: bool) -> Messages
    requires { (rows ≤ m.n) × (m.n ≤ max_messages) }
    ensures { result ≡ store_entries begun (cut_to rows left (entries_in m)) m }
{
    let n = m.n;
    let mut out = m;
    out.left.copy_within(rows..n, 0);
    out.class.copy_within(rows..n, 0);
    out.label.copy_within(rows..n, 0);
    if rows < n {
        out.left[0] = left;
    }
    out.n = n - rows;
    out.begun = begun;
    out
}

// k waiting bytes begin to fly.
pub fn fly(m: Messages, k: u32) -> Messages
    requires { m.n ≤ max_messages }
    ensures { result ≡ flown k m }
{
    let g = rows_gone(m, k);
    cut_to(m, g.rows, g.left, g.begun)
}
