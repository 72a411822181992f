// One element in so many bits, at most 64: `put` takes no more. Each answers the next position; what lies past the end of the area is not
// written.
ghost use Rattle.std.specs.Prelude.{◌≤◌, if◌then◌else◌};
ghost use Rattle.bits.specs.Puts.{binary};
ghost use Rattle.writing.specs.Wrote.{Wrote};

pub(crate) fn run(out: &mut [u8], at: usize, width: usize, value: u64) -> usize
    requires { width ≤ 64 }
    ensures { Wrote out.old out.new at result (binary width value) }
{
    bits::put(out, at, width, value);
    std::num::wrapping_add_usize(at, width)
}

// `byte` and `word` spare each call its `u64::from`; of an `Into<u64>` in place of both a contract knows only the relation `converts`.
pub(crate) fn byte(out: &mut [u8], at: usize, width: usize, value: u8) -> usize
    requires { width ≤ 64 }
    ensures { Wrote out.old out.new at result (binary width value) }
{
    run(out, at, width, value as u64)
}

pub(crate) fn word(out: &mut [u8], at: usize, width: usize, value: u32) -> usize
    requires { width ≤ 64 }
    ensures { Wrote out.old out.new at result (binary width value) }
{
    run(out, at, width, value as u64)
}

pub(crate) fn bit(out: &mut [u8], at: usize, value: bool) -> usize
    ensures { Wrote out.old out.new at result (binary 1 (if value then 1 else 0)) }
{
    run(out, at, 1, u64::from(value))
}
