// What is put into a block at an index, as far as there is room: bytes, numbers, and bytes in hex. Answered is where it ends.
// Printed by hand, since nothing is on a heap and a text is cut at 1,152 bytes (`text_of`): `Display` would need a writer of our own.
ghost use Rattle.std.specs.Prelude.{◌≡◌, ◌++◌, ◌<◌};
ghost use Rattle.blocks.specs.Blocks.{Wrote};
ghost use Rattle.words.specs.Words.{shown, decimal_of, hex_digit, hex_pair, message_hex, field_of};

pub(crate) fn add(block: &mut [u8], at: usize, piece: &[u8]) -> usize
    ensures { Wrote block.old at block.new result piece.now }
{
    blocks::put(block, at, piece)
}

// ---- numbers in decimal

// Ten digits, of which the zeros at the front are left out.
fn add_number(block: &mut [u8], at: usize, n: u32) -> usize
    ensures { Wrote block.old at block.new result (decimal_of n) }
{
    let mut end = at;
    let mut seen = false;
    // by ten each time: `10u64.pow(k)` makes a line of the replay an eighth slower
    let mut power: u64 = 10000000000;
    for k in (0..10).rev() {
        power /= 10;
        let digit = (n as u64 / power % 10) as u8;
        seen = is_shown(seen, k, digit);
        if seen {
            end = add(block, end, &[b'0' + digit]);
        }
    }
    end
}

// It is printed if a digit was, or it is the last, or it is not 0.
#[tactic(auto, unfolding(crate::specs::Words::shown))]
fn is_shown(seen: bool, k: u32, digit: u8) -> bool
    ensures { result ≡ shown seen k digit }
{
    seen || k == 0 || digit != 0
}

// A word and a number.
pub(crate) fn add_numbered(block: &mut [u8], at: usize, word: &[u8], n: u32) -> usize
    ensures { Wrote block.old at block.new result (word.now ++ decimal_of n) }
{
    let named = add(block, at, word);
    add_number(block, named, n)
}

// A colon and a number.
pub(crate) fn add_field(block: &mut [u8], at: usize, n: u32) -> usize
    ensures { Wrote block.old at block.new result (field_of n) }
{
    add_numbered(block, at, b":", n)
}

// ---- bytes in hex

// Message k of an output area.
pub(crate) fn add_message(block: &mut [u8], at: usize, area: &[u8], k: u8, bits: u16) -> usize
    ensures { Wrote block.old at block.new result (message_hex area.now k bits) }
{
    let mut end = at;
    let first = 100 * k as usize;
    for i in first..first + (bits as usize + 7) / 8 {
        end = add_byte(block, end, area.get(i).copied().unwrap_or(0));
    }
    end
}

fn add_byte(block: &mut [u8], at: usize, b: u8) -> usize
    ensures { Wrote block.old at block.new result (hex_pair b) }
{
    add(block, at, &[hex_digit(b / 16), hex_digit(b % 16)])
}

#[tactic(auto, unfolding(crate::specs::Words::hex_digit))]
fn hex_digit(x: u8) -> u8
    requires { x < 16 }
    ensures { result ≡ hex_digit x }
{
    if x < 10 { b'0' + x } else { b'A' + (x - 10) }
}
