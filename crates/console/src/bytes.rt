// Bytes that are compared, copied and zeroed. The first four are what is asked of a message that was drawn, and its going out (specs/Drawing).
ghost use Rattle.std.specs.Prelude.{◌≡◌, ◌-◌, ◌%◌, ◌≤◌, true, length, take, replicate};
ghost use Rattle.std.proofs.lemmas.List.Edits.{sets};
ghost use Rattle.bits.specs.Fields.{bit_at, field_at};
ghost use Rattle.console.specs.Drawing.{Alike, Copied};

use crate::values;

// Both are the bytes of one value. The first 464 go sixteen at a time, which leaves seven: `a == b` takes 80
// instructions more, an eighth of what writing ACCEPTED takes (docs/DESIGN-PASS.md).
pub(crate) fn same_bytes(a: &[u8], b: &[u8]) -> bool
    ensures { result ≡ true → (a.now ≡ b.now) × (length a.now ≡ 471) }
{
    if a.len() != values::BYTES || b.len() != values::BYTES {
        return false;
    }
    same_run(a, b, 0, 464) && same_run(a, b, 464, values::BYTES)
}

// It looks at each byte, and leaves off at none: so the compiler can take many at a time.
fn same_run(a: &[u8], b: &[u8], from: usize, to: usize) -> bool
    requires { (to ≤ length a.now) × (to ≤ length b.now) }
    ensures { result ≡ true → Alike a.now b.now from to }
{
    let mut same = true;
    for i in from..to {
        same = same & (a[i] == b[i]);
    }
    same
}

// The bits from a position to the end of its byte are 0.
pub(crate) fn spare_zero(l: &[u8], at: usize) -> bool
    ensures { result ≡ true → field_at (bit_at l.now) at (8 - at % 8) ≡ 0 }
{
    let i = at / 8;
    if i < l.len() {
        return u64::from(l[i]) << (56 + at % 8) == 0;
    }
    false
}

pub(crate) fn copy_bytes(out: &mut [u8], from: &[u8], count: usize)
    requires { (count ≤ length out.old) × (count ≤ length from.now) }
    ensures { (out.new ≡ sets out.old 0 (take count from.now)) × Copied out.old from.now count out.new }
{
    out[..count].copy_from_slice(&from[..count]);
}

pub(crate) fn zero_run(out: &mut [u8], from: usize, end: usize)
    requires { (from ≤ end) × (end ≤ length out.old) }
    ensures { out.new ≡ sets out.old from (replicate (end - from) 0) }
{
    out[from..end].fill(0);
}
