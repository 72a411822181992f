// The listing program: for each line of standard input its number and what it says, on standard output (document 01, "Bits and calls
// worked out"). All that is said of a line is `lines`' work; this reads and writes in blocks, numbers the lines, finds their ends, and says
// on standard error what failed and after which line (docs/LISTING.md).
#![tactic(auto)]

ghost use Rattle.std.specs.Prelude.{◌≡◌, ◌+◌, ◌^◌, ◌≤◌, length};

use lines::Text;
use std::io::{Read, Stdin};

// How many lines were answered, and the start of a line whose end is still to come.
#[derive(Clone, Copy)]
struct SoFar {
    number: u64,
    kept: blocks::Text,
}

// A line's number as it is printed: the first `len` of the bytes. (Fixed memory, no heap; `put_ended` takes it as it takes a `Text`.)
#[derive(Clone, Copy)]
struct Shown {
    len: usize,
    digits: [u8; 20],
}

// The longest line printed: a number of 20 digits, a space, 20 bytes and LF.
const LONGEST: usize = 42;

// So many blocks are read at most, 2 ^ 45: a proved loop ends, and nothing says that the input does.
const TURNS: u64 = 35184372088832;

fn main(rt: HostRuntime) {
    let mut input = io::large_buffer();
    let mut output = Output::new();
    run(rt.stdin(), &mut input, &mut output);
}

// Block after block. A read that answers an error failed; the input ends where one answers 0.
fn run(mut stdin: Stdin, input: &mut [u8; 65536], output: &mut Output) {
    let mut cut = false;
    let mut seen = SoFar {
        number: 0,
        kept: blocks::nothing_kept(),
    };
    for _turn in 0..TURNS {
        match stdin.read(input) {
            Ok(0) => break,
            Ok(n) => {
                seen = feed(&input[..n], output, seen);
                // nothing more can be written
                if output.failed {
                    break;
                }
            }
            Err(_) => {
                cut = true;
                break;
            }
        }
    }
    finish(output, seen, cut);
}

// The lines that end in a block, and the start of the next. A line of which no start is kept is read where it stands.
fn feed(block: &[u8], output: &mut Output, seen: SoFar) -> SoFar
    requires { seen.number + length block.now ≤ 2 ^ 62 }
    ensures { result.number ≤ seen.number + length block.now }
{
    let mut number = seen.number;
    let mut kept = seen.kept;
    let mut shown = shown_of(number);
    // a turn goes on where the line that it found ends, so nothing counts them
    let mut from = 0;
    while from < block.len() {
        let end = blocks::line_end(block, from);
        if end < block.len() {
            let before = number;
            let start = from;
            number += 1;
            shown = next_shown(shown, number);
            from = end + 1;
            if kept.len == 0 {
                output.line(before, shown, lines::said(&block[start..end]));
            } else {
                let text = lines::said_kept(blocks::keep(kept, &block[start..end]));
                output.line(before, shown, text);
                kept = blocks::nothing_kept();
            }
        } else {
            kept = blocks::keep(kept, &block[from..]);
            from = end;
        }
    }
    SoFar { number, kept }
}

// What is left to answer and to write, and what is to be said of a failure.
fn finish(output: &mut Output, seen: SoFar, cut: bool)
    requires { seen.number ≤ 2 ^ 62 }
{
    let number = last_line(output, seen, cut);
    output.flush(number);
    if cut {
        say(b"listing: reading failed after line ", number);
    }
    if output.failed {
        say(b"listing: writing failed after line ", output.written);
    }
}

// The last line may lack its LF. Of a line that a failed read cut short nothing is said. The result is how many lines were answered.
fn last_line(output: &mut Output, seen: SoFar, cut: bool) -> u64
    requires { seen.number ≤ 2 ^ 62 }
{
    if cut || seen.kept.len == 0 {
        return seen.number;
    }
    let number = seen.number + 1;
    let text = lines::said_kept(seen.kept);
    output.line(seen.number, shown_of(number), text);
    number
}

// A line on standard error. This and `Output` stand in replay too: no library has what writes, since no
// contract can say what was written.
fn say(what: &[u8], number: u64) {
    io::write_all(2, what);
    io::print_decimal(2, number);
    io::write_all(2, b"\n");
}

fn shown_of(number: u64) -> Shown {
    let mut digits = [0; 20];
    let len = io::decimal(number, &mut digits);
    Shown { len, digits }
}

// A number as it is printed, after the one before it: most differ in the last digit alone.
fn next_shown(shown: Shown, number: u64) -> Shown {
    let len = shown.len;
    let mut digits = shown.digits;
    if len > 0 && len <= 20 && digits[len - 1] < b'9' {
        digits[len - 1] += 1;
        return Shown { len, digits };
    }
    shown_of(number)
}

// ---- the output

// The answers: the block and how much of it they fill, up to which line all are known to be written, and whether a write failed. After that
// no other is tried.
#[derive(Drop)]
struct Output {
    block: [u8; 65536],
    filled: usize,
    written: u64,
    failed: bool,
    ghost fits: { filled ≤ 65536 },
}

impl Output {
    // Nothing is there to be written yet.
    fn new() -> Self
        ensures { result.filled ≡ 0 }
    {
        Output {
            block: io::large_buffer(),
            filled: 0,
            written: 0,
            failed: false,
        }
    }

    // The answer to a line, after those to `before` lines: the number and a space, the text and LF.
    fn line(&mut self, before: u64, shown: Shown, text: Text) {
        self.make_room(before);
        self.put_ended(shown.digits, shown.len, b' ');
        self.put_ended(text.bytes, text.len, b'\n');
    }

    // The first `len` of the bytes and one more, which is put with them where it fits behind them.
    fn put_ended(&mut self, bytes: [u8; 20], len: usize, end: u8) {
        let mut ended = bytes;
        if len < 20 {
            ended[len] = end;
            self.filled = blocks::put_first(&mut self.block, self.filled, &ended, len + 1);
            return;
        }
        self.filled = blocks::put_first(&mut self.block, self.filled, &ended, len);
        self.filled = blocks::put(&mut self.block, self.filled, &[end]);
    }

    // The block is written first where it might not hold one line more.
    fn make_room(&mut self, number: u64) {
        if self.filled > 65536 - LONGEST {
            self.flush(number);
        }
    }

    // The block is written, which has the last of the answers to `number` lines. It ends at a line's end, so a write that fails leaves the
    // answers of the blocks before it whole.
    fn flush(&mut self, number: u64) {
        self.failed = self.failed || !io::write_all(1, &self.block[..self.filled]);
        if !self.failed {
            self.written = number;
        }
        self.filled = 0;
    }
}
