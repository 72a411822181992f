// A field of up to 64 bits at a position of a byte slice: read it, write it. The first bit is the top bit of byte 0, and a
// number goes most significant bit first. No message is known here.
//
// Each public function takes every input. `field` equals `field_of`, `put` leaves `put_of` and `pad` leaves `pad_of` of what
// it found (specs/), so every bit and byte afterwards is decided; the laws of reading after writing are in proofs/RoundLaws.
#![tactic(auto)]

ghost use Rattle.std.specs.Prelude.{◌≡◌, ◌+◌, ◌*◌, ◌<◌, ◌≤◌, ◌^◌, length, get_or, set};
ghost use Rattle.bits.specs.Fields.{bit_at, field_at, field_of, eight_of};
ghost use Rattle.bits.specs.Puts.{with_digit, put_bits, binary, put_of, pad_of};

// The number in `width` bits from position `at` on. Bits past the end are 0; a width over 64 reads as 0.
pub fn field(buf: &[u8], at: usize, width: usize) -> u64
    ensures { result ≡ field_of buf.now at width }
{
    if width == 0 || width > 64 {
        return 0;
    }
    let first = at % 8;
    let top = word(buf, at / 8) << first;
    if first + width <= 64 {
        return top >> (64 - width);
    }
    (top + (byte_at(buf, at / 8 + 8) >> (8 - first))) >> (64 - width)
}

// The 64 bits of the eight bytes from an index on; 0 where they are not all there.
pub fn eight(buf: &[u8], i: usize) -> u64
    ensures { result ≡ eight_of buf.now i }
{
    let n = buf.len();
    if n < 8 || i > n - 8 {
        return 0;
    }
    word_inside(buf, i)
}

// The low `width` bits of `value`, written from position `at` on; nothing where they are over 64 or reach past the end.
pub fn put(out: &mut [u8], at: usize, width: usize, value: u64)
    ensures { out.new ≡ put_of out.old at width value }
{
    if width > 64 || at / 8 > out.len() || (at % 8 + width + 7) / 8 > out.len() - at / 8 {
        return;
    }
    put_inside(out, at, width, value);
}

// The bits from position `at` to the end of its byte become 0: the spare bits after a message.
pub fn pad(out: &mut [u8], at: usize)
    ensures { out.new ≡ pad_of out.old at }
{
    put(out, at, (8 - at % 8) % 8, 0);
}

// The byte at an index, 0 past the end.
fn byte_at(buf: &[u8], i: usize) -> u64
    ensures { (result ≡ get_or buf.now i 0) × (result < 256) }
{
    buf.get(i).copied().map_or(0, u64::from)
}

// The 64 bits of the eight bytes from an index on.
fn word(buf: &[u8], i: usize) -> u64
    requires { i + 8 < 2 ^ 64 }
    ensures { result ≡ field_at (bit_at buf.now) (8 * i) 64 }
{
    if i + 8 <= buf.len() {
        return word_inside(buf, i);
    }
    if buf.len() >= 8 {
        return word_of_last(buf, i);
    }
    word_at_end(buf, i)
}

// The same where all eight bytes are there: the compiler makes one load and one swap of bytes of it.
fn word_inside(buf: &[u8], i: usize) -> u64
    requires { i + 8 ≤ length buf.now }
    ensures { result ≡ field_at (bit_at buf.now) (8 * i) 64 }
{
    u64::from_be_bytes([
        buf[i],
        buf[i + 1],
        buf[i + 2],
        buf[i + 3],
        buf[i + 4],
        buf[i + 5],
        buf[i + 6],
        buf[i + 7],
    ])
}

// The same where some lie past the end of eight bytes or more: the last eight, moved up, since what is past the end is 0.
fn word_of_last(buf: &[u8], i: usize) -> u64
    requires { (8 ≤ length buf.now) × (length buf.now < i + 8) }
    ensures { result ≡ field_at (bit_at buf.now) (8 * i) 64 }
{
    if i >= buf.len() {
        return 0;
    }
    let last = buf.len() - 8;
    word_inside(buf, last) << (8 * (i - last))
}

// The same byte by byte, where any may lie past the end: for slices of fewer than eight.
fn word_at_end(buf: &[u8], i: usize) -> u64
    requires { i + 8 < 2 ^ 64 }
    ensures { result ≡ field_at (bit_at buf.now) (8 * i) 64 }
{
    let mut v: u64 = 0;
    for k in 0..8 {
        v = v * 256 + byte_at(buf, i + k);
    }
    v
}

// The bits lie in the bytes: each is put by itself, the most significant first.
fn put_inside(out: &mut [u8], at: usize, width: usize, value: u64)
    requires { (at + width ≤ 8 * length out.old) × (width ≤ 64) }
    ensures { out.new ≡ put_bits out.old at (binary width value) }
{
    for k in 0..width {
        let next = at % 8 + k;
        put_digit(
            out,
            at / 8 + next / 8,
            7 - next % 8,
            (value >> (width - (k + 1))) % 2,
        );
    }
}

// The binary digit of worth 2 ^ k of one byte.
fn put_digit(out: &mut [u8], i: usize, k: usize, digit: u64)
    requires { (i < length out.old) × ((k < 8) × (digit < 2)) }
    ensures { out.new ≡ set out.old i (with_digit (get_or out.old i 0) k digit) }
{
    let x = u64::from(out[i]);
    let worth = 1 << k;
    let y = (x / worth / 2 * 2 + digit) * worth + x % worth;
    out[i] = y as u8;
}
