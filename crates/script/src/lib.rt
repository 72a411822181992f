// One line of a desk script (docs/REPLAY.md): from its bytes to what it asks for.
//
// `parse` equals `line_of` for every line. Of a line that comes in pieces the first 1,152 bytes are kept (`blocks`), and `parse_kept` of these
// is what the whole line asks for, however long it is (proofs/KeepLaws). The files: shape (keyword, numbers), tasks (the lines that
// are numbers alone), profiles (the profile of a `profile` line, the rows of a `shares` line).
#![tactic(auto)]

ghost use Rattle.std.specs.Prelude.{◌≡◌, take};
ghost use Rattle.script.specs.Lines.{plain_line, message_line, post_line, profile_line, shares_line, task_of, line_of};

use blocks::Text;
use desk::Event;
use places::Place;
use profile::Profile;
use records::Record;
use shape::Numbers;

mod profiles;
mod shape;
mod tasks;

// What a line asks for: nothing that is understood; a call of the desk; a new desk; a record, the length of the output area or a place
// that is set; all that there is, to be printed; a second post, or a cause, for the call in a place; new shares.
#[derive(Clone, Copy)]
pub enum Task {
    Unknown,
    Call(Event),
    Open,
    Lend { at: u8, record: Record },
    Room { bytes: u16 },
    Fill { at: u8, place: Place },
    Dump,
    Second { at: u8, post: u8 },
    Cause { at: u8, cause: u8 },
    Shares,
}

// A task, and what goes with it: the profile of a new desk; the rows of new shares, which are those of the profile's; of a post's message the
// first `count` of the bytes. All else is zero. (A count beside an array, since there is no heap; `line_of` of specs/ names both.)
#[derive(Clone, Copy)]
pub struct Line {
    pub task: Task,
    pub profile: Profile,
    pub count: usize,
    pub bytes: [u8; 512],
}

#[tactic(auto, unfolding(crate::specs::Lines::line_of))]
pub fn parse(line: &[u8]) -> Line
    ensures { result ≡ line_of line.now }
{
    if shape::starts(line, b"post ") {
        return post_line(shape::numbers_at(line, 5, 2), line);
    }
    if shape::starts(line, b"profile ") {
        return profile_line(shape::numbers_at(line, 8, 40));
    }
    if shape::starts(line, b"shares ") {
        return shares_line(shape::numbers_at(line, 7, 40));
    }
    plain_line(task_of(line))
}

// What a line asks for that came in pieces.
pub fn parse_kept(kept: Text) -> Line
    ensures { result ≡ line_of (take kept.len kept.bytes) }
{
    parse_first(kept.bytes, kept.len)
}

fn parse_first(bytes: [u8; 1152], len: usize) -> Line
    ensures { result ≡ line_of (take len bytes) }
{
    let line: &[u8] = &bytes;
    if len > 1152 {
        return parse(line);
    }
    parse(&line[..len])
}

// A row of `if`s: a keyword is how a line starts, which no pattern of a `match` says.
#[tactic(auto, unfolding(crate::specs::Lines::task_of))]
fn task_of(line: &[u8]) -> Task
    ensures { result ≡ task_of line.now }
{
    if shape::starts(line, b"setup ") {
        return tasks::set_up(shape::numbers_at(line, 6, 40));
    }
    if shape::starts(line, b"reject ") {
        return tasks::reject(shape::numbers_at(line, 7, 40));
    }
    if shape::starts(line, b"cancel ") {
        return tasks::cancel(shape::numbers_at(line, 7, 40));
    }
    if shape::starts(line, b"record ") {
        return tasks::lend(shape::numbers_at(line, 7, 40));
    }
    if shape::starts(line, b"out ") {
        return tasks::room(shape::numbers_at(line, 4, 40));
    }
    if shape::starts(line, b"place ") {
        return tasks::fill(shape::numbers_at(line, 6, 40));
    }
    if shape::starts(line, b"unplace ") {
        return tasks::empty(shape::numbers_at(line, 8, 40));
    }
    if shape::starts(line, b"second ") {
        return tasks::second(shape::numbers_at(line, 7, 40));
    }
    if shape::starts(line, b"cause ") {
        return tasks::cause(shape::numbers_at(line, 6, 40));
    }
    if shape::starts(line, b"dump") {
        return tasks::dump(line.len());
    }
    Task::Unknown
}

#[tactic(auto, unfolding(crate::specs::Lines::post_line, lines::specs::Shape::no_bytes))]
fn post_line(n: Numbers, line: &[u8]) -> Line
    ensures { result ≡ post_line n line.now }
{
    if n.count != 2 {
        return plain_line(Task::Unknown);
    }
    if n.next == 0 {
        return message_line(n, 0, [0; 512]);
    }
    let hex = lines::hex_at(line, n.next);
    if hex.count < 1 {
        return plain_line(Task::Unknown);
    }
    message_line(n, hex.count, hex.bytes)
}

#[tactic(auto, unfolding(crate::specs::Lines::message_line))]
fn message_line(n: Numbers, count: usize, bytes: [u8; 512]) -> Line
    ensures { result ≡ message_line n count bytes }
{
    Line {
        task: Task::Call(Event::Message {
            post: n.number[0] as u64,
            bits: n.number[1] as u64,
        }),
        profile: profiles::no_profile(),
        count,
        bytes,
    }
}

#[tactic(auto, unfolding(crate::specs::Lines::profile_line, lines::specs::Shape::no_bytes))]
fn profile_line(n: Numbers) -> Line
    ensures { result ≡ profile_line n }
{
    let pairs = profiles::pairs_in(n.count);
    if !profiles::is_profile(n.number[20], pairs) {
        return plain_line(Task::Unknown);
    }
    Line {
        task: Task::Open,
        profile: profiles::profile_of(n.number, pairs),
        count: 0,
        bytes: [0; 512],
    }
}

#[tactic(auto, unfolding(crate::specs::Lines::shares_line, lines::specs::Shape::no_bytes))]
fn shares_line(n: Numbers) -> Line
    ensures { result ≡ shares_line n }
{
    if !profiles::is_pairs(n.count) {
        return plain_line(Task::Unknown);
    }
    Line {
        task: Task::Shares,
        profile: profiles::rows_of(n.number),
        count: 0,
        bytes: [0; 512],
    }
}

#[tactic(auto, unfolding(crate::specs::Lines::plain_line, lines::specs::Shape::no_bytes))]
fn plain_line(task: Task) -> Line
    ensures { result ≡ plain_line task }
{
    Line {
        task,
        profile: profiles::no_profile(),
        count: 0,
        bytes: [0; 512],
    }
}
