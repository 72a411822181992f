// A few bits at a position, from the eight bytes they begin in.
ghost use Rattle.std.specs.Prelude.{◌≡◌, ◌/◌, ◌^◌, ◌<◌, ◌≤◌, min, length};
ghost use Rattle.bits.specs.Fields.{bit_at, field_at};

use crate::number;

// One bit.
pub(crate) fn bit(buf: &[u8], at: usize) -> u64
    ensures { result ≡ field_at (bit_at buf.now) at 1 }
{
    (u64::from(number::byte_at(buf, at / 8)) >> (7 - at % 8)) % 2
}

// The number in up to 57 bits from position `at` on.
pub(crate) fn take(buf: &[u8], at: usize, width: usize) -> u64
    requires { width ≤ 57 }
    ensures { result ≡ field_at (bit_at buf.now) at width }
{
    window(buf, at) >> (57 - width)
}

// The number in four bits: a range, an area.
pub(crate) fn four(buf: &[u8], at: usize) -> u64
    ensures { (result ≡ field_at (bit_at buf.now) at 4) × (result < 16) }
{
    take(buf, at, 4)
}

// The number in 57 bits. Past the end they are 0: so near it they are in the last eight bytes.
pub(crate) fn window(buf: &[u8], at: usize) -> u64
    ensures { result ≡ field_at (bit_at buf.now) at 57 }
{
    let n = buf.len();
    if n < 8 {
        return bits::field(buf, at, 57);
    }
    let i = (at / 8).min(n - 8);
    let s = at - 8 * i;
    if s > 63 {
        return 0;
    }
    bits::eight(buf, i) << s >> 7
}

// The number in 50 bits, above one byte more, which may be anything.
pub(crate) fn ahead(buf: &[u8], at: usize) -> u64
    requires { 8 ≤ length buf.now }
    ensures { result / 256 ≡ field_at (bit_at buf.now) at 50 }
{
    let last = buf.len() - 8;
    if at / 8 <= last {
        return bits::eight(buf, at / 8) << (at % 8) >> 6;
    }
    let s = at - 8 * last;
    if s > 63 {
        return 0;
    }
    bits::eight(buf, last) << s >> 6
}
