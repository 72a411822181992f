// Blocks of bytes, for programs that read and write in blocks: where a line ends in one, a text put into one, and a text in pieces.
//
// Each function takes every input. `line_end` equals `line_end`; `put` leaves `put_text` and answers where it ends, so what does not fit is
// not put and every byte is decided (specs/Blocks). The bounds beside them follow, and are said for those who go on from there. `keep` puts
// one more piece after a text, of which the first 1,152 bytes are kept (specs/Texts, proofs/TextLaws).
#![tactic(auto)]

ghost use Rattle.std.specs.Prelude.{◌≡◌, ◌==◌, position, false, ◌+◌, ◌-◌, ◌≤◌, min, length, take};
ghost use Rattle.blocks.specs.Blocks.{line_end, text_end, put_text};
ghost use Rattle.blocks.specs.Texts.{no_text, keep_of};

// The first `len` of the bytes; the others are zero. (Fixed memory, since there is no heap: so no Vec; `text_of` and `keep_of` speak of it.)
#[derive(Clone, Copy)]
pub struct Text {
    pub len: usize,
    pub bytes: [u8; 1152],
}

// Where the line ends that goes on at an index: at the next LF, or at the block's end; from there on it ends where it is. As long as there
// are sixteen bytes they are looked at together.
pub fn line_end(block: &[u8], from: usize) -> usize
    ensures { (result ≡ line_end block.now from) × ((from ≤ result) × (result ≤ from + (length block.now - from))) }
{
    if from >= block.len() {
        return from;
    }
    let mut i = from;
    // a `while`: it goes by sixteen, and what is left is fewer
    while block.len() - i >= 16 && !has_lf(block, i) {
        i += 16;
    }
    next_lf(&block[i..]).map_or(block.len(), |n| i + n)
}

// Whether an LF may be among the sixteen bytes from an index on. It looks at each byte, and leaves off at none: so the compiler can take
// them at once.
fn has_lf(block: &[u8], from: usize) -> bool
    requires { from + 16 ≤ length block.now }
    ensures { result ≡ false → line_end block.now from ≡ line_end block.now (from + 16) }
{
    let mut seen = false;
    for j in 0..16 {
        seen |= block[from + j] == b'\n';
    }
    seen
}

// Where the first LF is.
fn next_lf(bytes: &[u8]) -> Option<usize>
    ensures { result ≡ position (λ x. x == 10) bytes.now }
{
    bytes.iter().position(|b| *b == b'\n')
}

// The bytes of a text one after the other, as far as there is room, and the index after them.
pub fn put(block: &mut [u8], at: usize, text: &[u8]) -> usize
    ensures { ((result ≡ text_end block.old at text.now) × (block.new ≡ put_text block.old at text.now)) × (result ≤ at + (length block.old - at)) }
{
    if at >= block.len() {
        return at;
    }
    let n = text.len().min(block.len() - at);
    block[at..at + n].copy_from_slice(&text[..n]);
    at + n
}

// The same for the first `len` bytes of a text; for all where it has no more.
pub fn put_first(block: &mut [u8], at: usize, text: &[u8], len: usize) -> usize
    ensures { ((result ≡ text_end block.old at (take len text.now)) × (block.new ≡ put_text block.old at (take len text.now))) × (result ≤ at + (length block.old - at)) }
{
    put(block, at, &text[..len.min(text.len())])
}

// Nothing is there yet.
pub fn nothing_kept() -> Text
    ensures { result ≡ no_text }
{
    Text {
        len: 0,
        bytes: [0; 1152],
    }
}

// One more piece, as far as there is room.
pub fn keep(kept: Text, piece: &[u8]) -> Text
    ensures { result ≡ keep_of kept piece.now }
{
    let mut bytes = kept.bytes;
    let len = put(&mut bytes, kept.len, piece);
    Text { len, bytes }
}
