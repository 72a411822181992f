// The outcomes of ACTIVATE or DEACTIVATE, 0 accepted, 1 failure U, 2 failure N: a bit in a mask, and what the masks say.
ghost use Rattle.std.specs.Prelude.{◌≡◌, cond, ◌-◌, ◌^◌, ◌<◌, eqb};
ghost use Rattle.records.specs.Outcomes.{sorted_by};

use crate::Sorted;
use profile::Air;

// The outcome of another post's user: failure N, which is failure U where they are equal.
pub(crate) fn other_of(air: Air) -> usize
    ensures { result ≡ cond (eqb air.unknown air.other) 1 2 }
{
    if air.unknown == air.other { 1 } else { 2 }
}

// The bit of identity i in a mask: the first has the highest.
pub(crate) fn bit_of(i: usize) -> u64
    requires { i < 64 }
    ensures { result ≡ 2 ^ (63 - i) }
{
    1 << (63 - i)
}

// An outcome is there exactly if its mask is not 0.
#[tactic(auto, unfolding(crate::specs::Outcomes::sorted_by))]
pub(crate) fn sorted_by(mask: [u64; 3]) -> Sorted
    ensures { result ≡ sorted_by mask }
{
    Sorted {
        some: [mask[0] != 0, mask[1] != 0, mask[2] != 0],
        mask,
    }
}
