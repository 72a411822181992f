// The parts of a line: a keyword, numbers.
ghost use Rattle.std.specs.Prelude.{◌≡◌, ◌≤◌};
ghost use Rattle.script.specs.Shape.{starts_with, number_if, number_at, no_numbers, numbers_at};

// A number and the position after it.
#[derive(Clone, Copy)]
pub(crate) struct Number {
    pub value: u32,
    pub next: usize,
}

// The first `count` of the row; `next` is the position after the space behind them, 0 if the line ends there. A row of 40 and a count, since
// nothing is on a heap; both by 0 and no Option, as `numbers_at` of specs/ has them.
#[derive(Clone, Copy)]
pub(crate) struct Numbers {
    pub count: usize,
    pub next: usize,
    pub number: [u32; 40],
}

// The line starts with this word.
pub(crate) fn starts(line: &[u8], word: &[u8]) -> bool
    ensures { result ≡ starts_with line.now word.now }
{
    line.starts_with(word)
}

// At most 40 numbers from a position on.
pub(crate) fn numbers_at(line: &[u8], from: usize, most: usize) -> Numbers
    requires { most ≤ 40 }
    ensures { result ≡ numbers_at most line.now from }
{
    let mut number = [0; 40];
    let mut at = from;
    for n in 0..most {
        let Some(d) = number_at(line, at) else {
            return no_numbers();
        };
        number[n] = d.value;
        if d.next >= line.len() {
            return Numbers {
                count: n + 1,
                next: 0,
                number,
            };
        }
        if line[d.next] != 32 {
            return no_numbers();
        }
        at = d.next + 1;
    }
    Numbers {
        count: most,
        next: at,
        number,
    }
}

// The number that stands at a position. Counted by hand: the position where the loop ends is asked for after it.
fn number_at(line: &[u8], from: usize) -> Option<Number>
    ensures { result ≡ number_at line.now from }
{
    let mut seen: u8 = 0;
    let mut value: u64 = 0;
    let mut i = from;
    while i < line.len() {
        let b = line[i];
        if !lines::is_digit(b) {
            return number_if(seen, value, i);
        }
        if seen >= 10 {
            return None;
        }
        value = value * 10 + lines::hex_digit(b) as u64;
        seen += 1;
        i += 1;
    }
    number_if(seen, value, i)
}

#[tactic(auto, unfolding(crate::specs::Shape::number_if))]
fn number_if(seen: u8, value: u64, next: usize) -> Option<Number>
    ensures { result ≡ number_if seen value next }
{
    if seen < 1 {
        return None;
    }
    Some(Number {
        value: u32::try_from(value).ok()?,
        next,
    })
}

#[tactic(auto, unfolding(crate::specs::Shape::no_numbers, crate::specs::Shape::no_row))]
fn no_numbers() -> Numbers
    ensures { result ≡ no_numbers }
{
    Numbers {
        count: 0,
        next: 0,
        number: [0; 40],
    }
}
