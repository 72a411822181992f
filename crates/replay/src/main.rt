// The replay program: a desk run from a script on standard input, one call a line, each answered in words on standard output
// (docs/REPLAY.md). What a line asks for is `script`'s work, what an answer says `words`', and what a call does `desk`'s; this keeps the desk,
// the records and the length of the output area from line to line, reads and writes in blocks, numbers the lines, finds their ends, and says
// on standard error what failed and after which line.
#![tactic(auto)]

ghost use Rattle.std.specs.Prelude.{◌≡◌, ◌+◌, ◌^◌, ◌≤◌, length};

use blocks::Text;
use desk::{Desk, Event};
use places::{Place, Places};
use records::{Marks, Record};
use script::{Line, Task};
use std::io::{Read, Stdin};

// How many lines there were, and the start of a line whose end is still to come.
#[derive(Clone, Copy)]
struct SoFar {
    number: u64,
    kept: Text,
}

// The longest answer, a dump: a number of 20 digits, " dump", 32 places of 17 bytes, " |", 256 records of 32 and LF.
const LONGEST: usize = 8764;

// So many blocks are read at most, 2 ^ 45: a proved loop ends, and nothing says that the input does.
const TURNS: u64 = 35184372088832;

fn main(rt: HostRuntime) {
    let mut input = io::large_buffer();
    let mut output = Output::new();
    run(rt.stdin(), &mut input, &mut output);
}

// ---- the input

// Block after block. A read that answers an error failed; the input ends where one answers 0.
fn run(mut stdin: Stdin, input: &mut [u8; 65536], output: &mut Output) {
    let mut cut = false;
    let mut state = State::new();
    let mut seen = SoFar {
        number: 0,
        kept: blocks::nothing_kept(),
    };
    for _turn in 0..TURNS {
        match stdin.read(input) {
            Ok(0) => break,
            Ok(n) => {
                seen = feed(&input[..n], output, &mut state, seen);
                // nothing more can be written
                if output.failed {
                    break;
                }
            }
            Err(_) => {
                cut = true;
                break;
            }
        }
    }
    finish(output, &mut state, seen, cut);
}

// The lines that end in a block, and the start of the next.
fn feed(block: &[u8], output: &mut Output, state: &mut State, seen: SoFar) -> SoFar
    requires { seen.number + length block.now ≤ 2 ^ 62 }
    ensures { result.number ≤ seen.number + length block.now }
{
    let mut number = seen.number;
    let mut kept = seen.kept;
    // a turn goes on where the line that it found ends, so nothing counts them
    let mut from = 0;
    while from < block.len() {
        let end = blocks::line_end(block, from);
        if end < block.len() {
            let line = whole(kept, &block[from..end]);
            let before = number;
            from = end + 1;
            number += 1;
            kept = blocks::nothing_kept();
            output.make_room(before);
            answer(output, number, state, line);
        } else {
            kept = blocks::keep(kept, &block[from..]);
            from = end;
        }
    }
    SoFar { number, kept }
}

// What a line asks for of which a start may have come before.
fn whole(kept: Text, rest: &[u8]) -> Line {
    if kept.len == 0 {
        return script::parse(rest);
    }
    script::parse_kept(blocks::keep(kept, rest))
}

// What is left to answer and to write, and what is to be said of a failure.
fn finish(output: &mut Output, state: &mut State, seen: SoFar, cut: bool)
    requires { seen.number ≤ 2 ^ 62 }
{
    let number = last_line(output, state, seen, cut);
    output.flush(number);
    if cut {
        say(b"replay: reading failed after line ", number);
    }
    if output.failed {
        say(b"replay: writing failed after line ", output.written);
    }
}

// The last line may lack its LF. A line that a failed read cut short is not carried out. The result is how many lines there were.
fn last_line(output: &mut Output, state: &mut State, seen: SoFar, cut: bool) -> u64
    requires { seen.number ≤ 2 ^ 62 }
{
    if cut || seen.kept.len == 0 {
        return seen.number;
    }
    let number = seen.number + 1;
    let line = script::parse_kept(seen.kept);
    output.make_room(seen.number);
    answer(output, number, state, line);
    number
}

// A line on standard error. This and `Output` stand in listing too: no library has what writes, since no
// contract can say what was written.
fn say(what: &[u8], number: u64) {
    io::write_all(2, what);
    io::print_decimal(2, number);
    io::write_all(2, b"\n");
}

// ---- one line

// A line, the one of this number.
fn answer(output: &mut Output, number: u64, state: &mut State, line: Line) {
    match line.task {
        Task::Unknown => not_understood(output, number),
        Task::Call(event) => call(output, number, state, line, event),
        Task::Open => open(output, number, state, line),
        Task::Lend { at, record } => state.lend(at, record),
        Task::Room { bytes } => state.room = bytes as usize,
        Task::Fill { at, place } => state.fill(at, place),
        Task::Dump => dump(output, number, state),
        Task::Second { at, post } => state.set_second(at, post),
        Task::Cause { at, cause } => state.set_cause(at, cause),
        Task::Shares => change_shares(output, number, state, line),
    }
}

fn not_understood(output: &mut Output, number: u64) {
    let text = blocks::keep(blocks::nothing_kept(), b"not understood");
    output.line(number, text);
}

// The area is as many of 300 bytes as are lent, each AA; the message is the first `count` of the line's bytes.
fn call(output: &mut Output, number: u64, state: &mut State, line: Line, event: Event) {
    let mut bytes = [0xAAu8; 300];
    if state.room > 300 {
        return;
    }
    let area = &mut bytes[..state.room];
    let message = &line.bytes[..line.count.min(512)];
    let stepped = desk::step(state.desk, state.low, state.lent, message, area, event);
    let text = words::said(stepped.answer, stepped.laid, area);
    output.line(number, text);
    state.desk = stepped.desk;
    state.mark(stepped.marks);
}

// A new desk, or `refused 1` and the old one.
fn open(output: &mut Output, number: u64, state: &mut State, line: Line) {
    match Desk::open(line.profile) {
        Ok(desk) => state.desk = desk,
        Err(stop) => output.line(number, words::said_refused(stop.number)),
    }
}

// New shares on the desk, or a refusal and the desk as it stands.
fn change_shares(output: &mut Output, number: u64, state: &mut State, line: Line) {
    let changed = desk::change_shares(state.desk, line.profile.shares.share);
    output.line(number, words::said_change(changed.change));
    state.desk = changed.desk;
}

// ---- a dump

fn dump(output: &mut Output, number: u64, state: &State) {
    output.put_number(number);
    output.put(b" dump");
    dump_places(output, &state.desk.places.place);
    output.put(b" |");
    dump_rows(output, &state.low, 0);
    dump_rows(output, &state.high, 128);
    output.put(b"\n");
}

fn dump_places(output: &mut Output, list: &[Place; 32]) {
    for i in 0..32u8 {
        let place = list[i as usize];
        if place.used {
            output.put_text(words::said_place(i, place));
        }
    }
}

fn dump_rows(output: &mut Output, rows: &Rows, first: u8)
    requires { first ≤ 128 }
{
    for i in 0..128u8 {
        let row = rows[i as usize];
        if row.in_use {
            output.put_text(words::said_record(first + i, row));
        }
    }
}

// ---- the state

type Rows = [Record; 128];

// What is lent from call to call: the desk, the first `lent` of 256 records, the first `room` bytes of the output area. A call looks at the
// first 128 records alone, so these are an array of their own.
#[derive(Clone, Copy)]
struct State {
    desk: Desk,
    low: Rows,
    high: Rows,
    lent: usize,
    room: usize,
}

const NO_ROWS: Rows = [Record {
    in_use: false,
    ssi: 0,
    extension: 0,
    post: 0,
    active: false,
}; 128];

impl State {
    // The sample profile, no record, an area of 300 bytes.
    #[tactic(auto, using(profile::proofs::ProfileLaws::sample_passes), unfolding(desk::specs::Desks::open_of))]
    fn new() -> Self {
        State {
            desk: Desk::open(profile::sample_profile()).unwrap(),
            low: NO_ROWS,
            high: NO_ROWS,
            lent: 0,
            room: 300,
        }
    }

    // The marks that a call set: of none but the first `lent`.
    fn mark(&mut self, marks: Marks) {
        for i in 0..self.lent.min(128) {
            if marks.at[i] {
                self.low[i].active = marks.mark;
            }
        }
    }

    // As many are lent as the highest number set, plus 1.
    fn lend(&mut self, at: u8, record: Record) {
        let i = at as usize;
        if i < 128 {
            self.low[i] = record;
        } else {
            self.high[i - 128] = record;
        }
        self.lent = self.lent.max(i + 1);
    }

    fn fill(&mut self, at: u8, place: Place) {
        if at < 32 {
            self.desk.places.place[at as usize] = place;
        }
    }

    // The call in the place has this second post; a place without a call stays as it is.
    fn set_second(&mut self, at: u8, post: u8) {
        let p = places::place_at(self.desk.places, at);
        if p.used {
            self.fill(
                at,
                Place {
                    more: true,
                    second: post,
                    ..p
                },
            );
        }
    }

    // The same of its cause.
    fn set_cause(&mut self, at: u8, cause: u8) {
        let p = places::place_at(self.desk.places, at);
        if p.used {
            self.fill(at, Place { cause, ..p });
        }
    }
}

// ---- the output

// The answers: the block and how much of it they fill, up to which line all are known to be written, and whether a write failed. After that
// no other is tried.
#[derive(Drop)]
struct Output {
    block: [u8; 65536],
    filled: usize,
    written: u64,
    failed: bool,
    ghost fits: { filled ≤ 65536 },
}

impl Output {
    // Nothing is there to be written yet.
    fn new() -> Self
        ensures { result.filled ≡ 0 }
    {
        Output {
            block: io::large_buffer(),
            filled: 0,
            written: 0,
            failed: false,
        }
    }

    // An answer of one text, with its number.
    fn line(&mut self, number: u64, text: Text) {
        self.put_number(number);
        self.put(b" ");
        self.put_text(text);
        self.put(b"\n");
    }

    fn put_number(&mut self, number: u64) {
        let mut digits = [0u8; 20];
        let count = io::decimal(number, &mut digits);
        self.put(&digits[..count]);
    }

    fn put_text(&mut self, text: Text) {
        self.filled = blocks::put_first(&mut self.block, self.filled, &text.bytes, text.len);
    }

    fn put(&mut self, bytes: &[u8]) {
        self.filled = blocks::put(&mut self.block, self.filled, bytes);
    }

    // The block is written first where it might not hold one answer more.
    fn make_room(&mut self, number: u64) {
        if self.filled > 65536 - LONGEST {
            self.flush(number);
        }
    }

    // The block is written, which has the last of the answers to `number` lines. It ends at a line's end, so a write that fails leaves the
    // answers of the blocks before it whole.
    fn flush(&mut self, number: u64) {
        self.failed = self.failed || !io::write_all(1, &self.block[..self.filled]);
        if !self.failed {
            self.written = number;
        }
        self.filled = 0;
    }
}
