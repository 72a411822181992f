// Bytes at an index, and numbers in several of them, most significant first.
ghost use Rattle.std.specs.Prelude.{◌≡◌, ◌+◌, ◌*◌, ◌%◌, ◌^◌, ◌<◌, ◌≤◌, length, drop, nat_le, slice_index, slice_set};
ghost use Rattle.std.proofs.lemmas.List.Edits.{sets};
ghost use Rattle.profile.specs.Counting.{one, every};
ghost use Rattle.layouts.specs.Bytes.{number_from, number_bytes};

// 0 past the end.
pub(crate) fn byte_at(l: &[u8], i: usize) -> u8
    ensures { result ≡ slice_index l.now i }
{
    l.get(i).copied().unwrap_or(0)
}

// Two bytes or three fit a u32, which a count that is handed over does not say.
pub(crate) fn two_at(l: &[u8], at: usize) -> u32
    requires { at ≤ 4096 }
    ensures { result ≡ number_from 2 (drop at l.now) }
{
    number_at(l, at, 2) as u32
}

pub(crate) fn three_at(l: &[u8], at: usize) -> u32
    requires { at ≤ 4096 }
    ensures { result ≡ number_from 3 (drop at l.now) }
{
    number_at(l, at, 3) as u32
}

pub(crate) fn number_at(l: &[u8], at: usize, count: usize) -> u64
    requires { (at ≤ 4096) × (count ≤ 8) }
    ensures { (result ≡ number_from count (drop at l.now)) × (result < 2 ^ (8 * count)) }
{
    let mut v: u64 = 0;
    for k in 0..count {
        v = v * 256 + u64::from(byte_at(l, at + k));
    }
    v
}

// None of so many bytes is over the most.
pub(crate) fn are_up_to(l: &[u8], at: usize, count: usize, most: u8) -> bool
    requires { (at ≤ 4096) × (count ≤ 64) }
    ensures { result ≡ every count (λ r. nat_le (slice_index l.now (at + r)) most) }
{
    for r in 0..count {
        if byte_at(l, at + r) > most {
            return false;
        }
    }
    true
}

// Nothing past the end.
pub(crate) fn put_byte(out: &mut [u8], at: usize, b: u8)
    ensures { out.new ≡ slice_set out.old at b }
{
    if at < out.len() {
        out[at] = b;
    }
}

// 1 or 0.
pub(crate) fn put_flag(out: &mut [u8], at: usize, b: bool)
    ensures { out.new ≡ slice_set out.old at (one b) }
{
    put_byte(out, at, u8::from(b));
}

// Its low byte.
pub(crate) fn put_low(out: &mut [u8], at: usize, n: u32)
    ensures { out.new ≡ slice_set out.old at (n % 256) }
{
    put_byte(out, at, (n % 256) as u8);
}

// From the last byte to the first.
pub(crate) fn put_number(out: &mut [u8], at: usize, count: usize, v: u64)
    requires { (at ≤ 4096) × (count ≤ 8) }
    ensures { out.new ≡ sets out.old at (number_bytes count v) }
{
    let mut rest = v;
    for k in (0..count).rev() {
        put_byte(out, at + k, (rest % 256) as u8);
        rest /= 256;
    }
}

// The same in bytes that are there, with no test for each.
pub(crate) fn put_run(out: &mut [u8], at: usize, count: usize, v: u64)
    requires { at + count ≤ length out.old }
    ensures { out.new ≡ sets out.old at (number_bytes count v) }
{
    let mut rest = v;
    for k in (0..count).rev() {
        out[at + k] = (rest % 256) as u8;
        rest /= 256;
    }
}

// The number in three bytes that are there.
pub(crate) fn triple(l: &[u8], at: usize) -> u64
    requires { at + 3 ≤ length l.now }
    ensures { (result ≡ number_from 3 (drop at l.now)) × (result < 2 ^ 24) }
{
    u64::from(l[at]) * 65536 + u64::from(l[at + 1]) * 256 + u64::from(l[at + 2])
}
