// The run of a call list, what stands between its lines beside the sender's record and the box; and the lines that ask neither: those
// of a profile, `load`, those that lend, remarks (docs/CALLS.md). t: the transcript's buffer; v: the numbers of the profile's lines;
// file: the file that stands for them; l: the line that is to ask.
#![tactic(auto)]

ghost use Rattle.std.specs.Prelude.{◌≡◌};
ghost use Rattle.laws.specs.Bytes.{overwrite};
ghost use Rattle.text.specs.Buffer.{appended};
ghost use Rattle.profile_table.specs.Table.{profile_of};
ghost use Rattle.look_lines.specs.Looks.{file_in, load_of};
ghost use Rattle.run_lines.specs.RunLinesCode.{with_todo};
ghost use Rattle.run_lines.specs.RunLines.{none_yet, looked_at, left_by, wrote_to, broken_run, to_ask, passed_over, is_call, is_load, is_box};
ghost use Rattle.run_lines.specs.RunLines.{ended, profile_begun, started, zeros, next_line, profile_part, loaded, file_taken, loads};
ghost use Rattle.run_lines.specs.RunLines.{profile_now, length_of, most_lent, lent, lent_text, lends, size_at, size_now, size_after};
ghost use Rattle.run_lines.specs.RunLines.{todo_of, asks, lends_some, called, quiet_line};

use byte_copy::{copy_in, least};
use call_lines::names::{Call, Named, call_of};
use config::Profile;
use limits::AREA_BYTES;
use look_lines::LoadLine;
use profile_table::listed::profile_line;
use profile_table::{LINES, profile_of};
use record::Counts;
use words::{Read, done, whole, word};

// No whole profile was read yet: `stage` is past every stage.
const NO_PROFILE: usize = 1000;

// What is to do about a line: it was not looked at; it is done; it is done, and a fresh sender starts; it asks the sender; it shows
// something.
#[derive(Clone, Copy, PartialEq, Eq)]
pub enum Todo {
    New,
    Done,
    Anew,
    Asks,
    Shows,
}

// `stage` counts the profile's lines read, `file` the bytes of the file that stands for them, 0 where none does; `ok` is false after a
// line that breaks the rules; `anew`: a fresh box starts with the next line; `todo` as above, and the characters of the line that is to
// ask; what is lent of the work area and of the output, and what is used of the text's buffer; the number of the last burst, and its
// frames' size.
#[derive(Clone, Copy)]
pub struct Run {
    pub stage: usize,
    pub file: usize,
    pub ok: bool,
    pub anew: bool,
    pub todo: Todo,
    pub len: usize,
    pub area: usize,
    pub out: usize,
    pub text: usize,
    pub number: u8,
    pub size: u16,
}

// What the other lines tell of the sender.
#[derive(Clone, Copy)]
pub struct Told {
    pub counts: Counts,
    pub withdrawn: u32,
    pub number: u8,
    pub frames: u8,
    pub level: usize,
}

// Before the first line.
pub fn none_yet() -> Run
    ensures { result ≡ none_yet }
{
    Run {
        stage: NO_PROFILE,
        file: 0,
        ok: true,
        anew: true,
        todo: Todo::Done,
        len: 0,
        area: 0,
        out: 0,
        text: 0,
        number: 0,
        size: 0,
    }
}

fn with_todo(mut run: Run, todo: Todo) -> Run
    ensures { result ≡ with_todo todo run }
{
    run.todo = todo;
    run
}

fn with_text(mut run: Run, n: usize) -> Run
    ensures { result ≡ wrote_to run n }
{
    run.text = n;
    run.todo = Todo::Done;
    run
}

fn failed(mut run: Run) -> Run
    ensures { result ≡ broken_run run }
{
    run.ok = false;
    run.todo = Todo::Done;
    run
}

// What a line left.
pub fn left(mut run: Run, ok: bool, n: usize) -> Run
    ensures { result ≡ left_by run ok n }
{
    run.ok = ok;
    run.text = n;
    run.todo = Todo::Done;
    run
}

// A line of so many characters is to ask.
pub fn to_ask(mut run: Run, todo: Todo, n: usize) -> Run
    ensures { result ≡ to_ask run todo n }
{
    run.todo = todo;
    run.len = n;
    run
}

// ---- a line

// Bytes of output that a profile lends, zeros at each call that writes there.
const OUT_BYTES: usize = 32768;

// Bytes that a line can have as HEX: its 65,536 characters have no more pairs.
const HEX_BYTES: usize = 32768;

// A remark, or an empty line.
#[tactic(auto, unfolding(crate::specs::RunLines::passed_over))]
fn passed_over(line: &[u8]) -> bool
    ensures { result ≡ passed_over line.now }
{
    if line.is_empty() {
        return true;
    }
    line[0] == b'#'
}

// Whether a line is a call, which stands after a whole profile.
fn is_call(line: &[u8], run: Run) -> bool
    ensures { result ≡ is_call line.now run }
{
    let r = word(line, b"profile");
    (run.stage == LINES) & !passed_over(line) & !done(line, r)
}

// Whether a line hands in a profile's file: between profiles.
fn is_load(line: &[u8], run: Run) -> bool
    ensures { result ≡ is_load line.now run }
{
    let r = word(line, b"load");
    (run.stage >= LINES) & r.ok
}

// ---- profiles

// Zeros again.
fn clear(a: &mut [u8])
    ensures { a.new ≡ zeros a.old }
{
    a.fill(0);
}

// The sender before ends, where there was one: what is used of the transcript then.
fn ended(run: Run, s: Told, t: &mut [u8]) -> usize
    ensures { (result, t.new) ≡ ended run s t.old }
{
    if run.stage == LINES {
        return state_lines::end(t, run.text, s.counts, s.withdrawn);
    }
    run.text
}

// `profile`: the sender before it ends, and a fresh one is there while the profile's lines follow.
fn begin(run: Run, s: Told, t: &mut [u8]) -> Run
    ensures { (result, t.new) ≡ profile_begun run s t.old }
{
    let mut after = run;
    after.text = ended(run, s, t);
    after.stage = 0;
    after.todo = Todo::Anew;
    after
}

// The whole profile was read: a fresh sender, a work area of zeros of which 49,152 bytes are lent, and an output that is lent whole.
fn start(run: Run, area: &mut [u8]) -> Run
    ensures value { result ≡ started run }
    ensures area_after { area.new ≡ zeros area.old }
{
    clear(area);
    let mut after = run;
    after.stage = LINES;
    after.file = 0;
    after.anew = true;
    after.todo = Todo::Done;
    after.area = AREA_BYTES;
    after.out = OUT_BYTES;
    after
}

// The profile's next line.
fn profile_step(line: &[u8], run: Run, area: &mut [u8], v: &mut [u64; 146]) -> Run
    ensures { (result, (area.new, v.new)) ≡ next_line line.now run area.old v.old }
{
    let k = run.stage;
    if !profile_line(line, k, v) {
        return failed(run);
    }
    if k >= LINES - 1 {
        return start(run, area);
    }
    let mut after = run;
    after.stage = k + 1;
    after.todo = Todo::Anew;
    after
}

// A line of a profile, or one that begins it. The record is fresh from `profile` to the end of the profile.
fn profile_part(
    line: &[u8],
    run: Run,
    s: Told,
    area: &mut [u8],
    t: &mut [u8],
    v: &mut [u64; 146],
) -> Run
    ensures { (result, (area.new, (t.new, v.new)))
        ≡ profile_part line.now run s area.old t.old v.old }
{
    if passed_over(line) {
        return with_todo(run, Todo::Done);
    }
    if run.stage < LINES {
        return profile_step(line, run, area, v);
    }
    let r = word(line, b"profile");
    if done(line, r) {
        return begin(run, s, t);
    }
    failed(run)
}

// A file is kept in the place of the one before it, so much of it as there is room for.
fn keep(file: &mut [u8], bytes: &[u8])
    ensures { file.new ≡ overwrite file.old 0 bytes.now }
{
    let n = least(file.len(), bytes);
    copy_in(file, 0, &bytes[..n]);
}

// The file of n bytes is taken: it stands for the profile.
fn loaded(run: Run, n: usize, stretched: bool, area: &mut [u8], t: &mut [u8]) -> Run
    ensures { (result, (area.new, t.new)) ≡ loaded run n stretched area.old t.old }
{
    let mut after = start(run, area);
    after.file = n;
    after.todo = Todo::Anew;
    after.text = transcript::loaded(t, run.text, stretched);
    after
}

// The file that a line hands in, in `bytes`.
fn load_words(line: &[u8], v: &[u64; 146], bytes: &mut [u8]) -> LoadLine
    ensures value { result ≡ load_of (profile_of v.now) bytes.old line.now }
    ensures bytes_after { bytes.new ≡ file_in bytes.old line.now }
{
    look_lines::load(line, bytes, profile_of(v))
}

// A file is taken: the sender before it ends, and a fresh one starts under the profile read.
fn take_file(
    run: Run,
    s: Told,
    bytes: &[u8],
    stretched: bool,
    area: &mut [u8],
    t: &mut [u8],
    file: &mut [u8],
) -> Run
    ensures { (result, (area.new, (t.new, file.new)))
        ≡ file_taken run s bytes.now stretched area.old t.old file.old }
{
    keep(file, bytes);
    let run = begin(run, s, t);
    loaded(run, bytes.len(), stretched, area, t)
}

// `load`.
fn load(
    line: &[u8],
    run: Run,
    s: Told,
    area: &mut [u8],
    t: &mut [u8],
    v: &[u64; 146],
    file: &mut [u8],
) -> Run
    ensures { (result, (area.new, (t.new, file.new)))
        ≡ loads line.now run s area.old t.old v.now file.old }
{
    let mut bytes = [0u8; HEX_BYTES];
    let q = load_words(line, v, &mut bytes);
    if !q.ok {
        return failed(run);
    }
    if q.refusal != 0 {
        return with_text(run, transcript::answer(t, run.text, b"load", q.refusal));
    }
    let n = least(q.len, &bytes);
    take_file(run, s, &bytes[..n], q.stretched, area, t, file)
}

// ---- calls

// A length, at most `most`; none where the line is not right.
#[tactic(auto, unfolding(crate::specs::RunLines::length_of))]
fn length(line: &[u8], r: Read, most: u64) -> Option<u64>
    ensures { result ≡ length_of line.now r most }
{
    let q = whole(line, r);
    if done(line, q) & (q.value <= most) {
        return Some(q.value);
    }
    None
}

// So much of the work area, or of the output, is lent from here on.
#[tactic(auto, unfolding(crate::specs::RunLines::lent))]
fn lent(call: Option<Call>, mut run: Run, n: usize) -> Run
    ensures { result ≡ lent call run n }
{
    match call {
        Some(Call::Area) => run.area = n,
        _ => run.out = n,
    }
    run
}

#[tactic(auto, unfolding(crate::specs::RunLines::lent_text))]
fn lent_text(call: Option<Call>, t: &mut [u8], n: usize) -> usize
    ensures { (result, t.new) ≡ appended (n, t.old) (lent_text call) }
{
    match call {
        Some(Call::Area) => transcript::answer(t, n, b"area", 0),
        _ => transcript::answer(t, n, b"out", 0),
    }
}

#[tactic(auto, unfolding(crate::specs::RunLines::lends))]
fn lend(n: Named, line: &[u8], run: Run, t: &mut [u8]) -> Run
    ensures { (result, t.new) ≡ lends n line.now run t.old }
{
    let Some(len) = length(line, n.read, most_lent(n.call)) else {
        return failed(run);
    };
    let text = lent_text(n.call, t, run.text);
    lent(n.call, with_text(run, text), len as usize)
}

fn most_lent(call: Option<Call>) -> u64
    ensures { result ≡ most_lent call }
{
    match call {
        Some(Call::Area) => 65536,
        _ => OUT_BYTES as u64,
    }
}

// A frame's size at a level.
fn size_at(level: usize, short: u32, long: u32) -> u16
    ensures { result ≡ size_at level short long }
{
    if level <= 4 {
        return (short % 65536) as u16;
    }
    (long % 65536) as u16
}

// The size of the frames that a burst has now.
fn size_now(run: Run, level: usize, v: &[u64; 146], file: &[u8]) -> u16
    ensures { result ≡ size_now run level v.now file.now }
{
    let p = profile_now(run, v, file);
    size_at(level, p.short_bytes, p.long_bytes)
}

// The size of the last burst's frames after a call.
#[tactic(auto, unfolding(crate::specs::RunLines::size_after))]
fn size_after(call: Option<Call>, run: Run, level: usize, v: &[u64; 146], file: &[u8]) -> u16
    ensures { result ≡ size_after call run level v.now file.now }
{
    match call {
        Some(Call::Burst) => size_now(run, level, v, file),
        _ => run.size,
    }
}

// What a call is to do: a queuing, a reply, a burst and the question for a piece ask the sender, and so does a line of no call.
#[tactic(auto, unfolding(crate::specs::RunLines::todo_of))]
fn todo_of(call: Option<Call>) -> Todo
    ensures { result ≡ todo_of call }
{
    match call {
        Some(
            Call::Log
            | Call::State
            | Call::Area
            | Call::Out
            | Call::Levels
            | Call::Messages
            | Call::Card,
        ) => Todo::Shows,
        _ => Todo::Asks,
    }
}

// A line that asks or shows: it stands in `l`.
fn asks(call: Option<Call>, line: &[u8], run: Run, l: &mut [u8]) -> Run
    ensures { (result, l.new) ≡ asks call line.now run l.old }
{
    let n = least(l.len(), line);
    keep(l, line);
    to_ask(run, todo_of(call), n)
}

// Whether a call lends some of the work area or of the output.
fn lends_some(call: Option<Call>) -> bool
    ensures { result ≡ lends_some call }
{
    matches!(call, Some(Call::Area | Call::Out))
}

// A call.
#[tactic(auto, unfolding(crate::specs::RunLines::called))]
fn called(
    n: Named,
    line: &[u8],
    run: Run,
    level: usize,
    t: &mut [u8],
    v: &[u64; 146],
    file: &[u8],
    l: &mut [u8],
) -> Run
    ensures { (result, (t.new, l.new))
        ≡ called n line.now run level t.old v.now file.now l.old }
{
    if lends_some(n.call) {
        return lend(n, line, run, t);
    }
    let mut after = asks(n.call, line, run, l);
    after.size = size_after(n.call, run, level, v, file);
    after
}

// A line, where it is not the box's.
#[tactic(auto, unfolding(crate::specs::RunLines::quiet_line))]
pub fn quiet(
    line: &[u8],
    run: Run,
    s: Told,
    area: &mut [u8],
    t: &mut [u8],
    v: &mut [u64; 146],
    file: &mut [u8],
    l: &mut [u8],
) -> Run
    ensures { (result, (area.new, (t.new, (v.new, (file.new, l.new)))))
        ≡ quiet_line line.now run s area.old t.old v.old file.old
        l.old }
{
    if run.todo != Todo::New {
        return run;
    }
    if is_load(line, run) {
        return load(line, run, s, area, t, v, file);
    }
    if is_call(line, run) {
        return called(call_of(line), line, run, s.level, t, v, file, l);
    }
    profile_part(line, run, s, area, t, v)
}

// The profile, by its lines or by its file.
pub fn profile_now(run: Run, v: &[u64; 146], file: &[u8]) -> Profile
    ensures { result ≡ profile_now run v.now file.now }
{
    let p = profile_of(v);
    if run.file == 0 {
        return p;
    }
    let n = least(run.file, file);
    let q = card::read(&file[..n], p);
    q.profile
}

// Before a line: no box is to start any more, and the last burst is known.
pub fn looked_at(mut run: Run, number: u8) -> Run
    ensures { result ≡ looked_at run number }
{
    run.anew = false;
    run.number = number;
    run.todo = Todo::New;
    run
}

// Whether a line is the box's, or none that there is.
#[tactic(auto, unfolding(crate::specs::RunLines::is_box))]
pub fn is_box(line: &[u8], run: Run) -> bool
    ensures { result ≡ is_box line.now run }
{
    let n = call_of(line);
    is_call(line, run) & !is_load(line, run) & n.call.is_none()
}
