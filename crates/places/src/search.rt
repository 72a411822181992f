// Searches among the places, from the lowest up.
ghost use Rattle.std.specs.Prelude.{◌≡◌, ◌<◌, not, position, IfSome};
ghost use Rattle.std.specs.Option.{unwrap_or};
ghost use Rattle.places.specs.Spots.{has_call, spot_of};

use crate::{Place, Spot};

// The number of the lowest free place.
pub(crate) fn free_number(list: [Place; 32]) -> Option<usize>
    ensures lowest { result ≡ position (λ (p : Place). not p.used) list }
    ensures below { IfSome result (λ n. n < 32) }
{
    list.iter().position(|p| !p.used)
}

// The number of the lowest place where a call with this identifier waits.
pub(crate) fn call_number(list: [Place; 32], identifier: u32) -> Option<usize>
    ensures lowest { result ≡ position (λ p. has_call p identifier) list }
    ensures below { IfSome result (λ n. n < 32) }
{
    list.iter().position(|p| has_call(*p, identifier))
}

#[tactic(auto, unfolding(crate::specs::Spots::has_call, codec::specs::Codec::both))]
fn has_call(p: Place, identifier: u32) -> bool
    ensures { result ≡ has_call p identifier }
{
    p.used && u32::from(p.identifier) == identifier
}

// The spot of the number that a search found.
#[tactic(auto, unfolding(crate::specs::Spots::spot_of))]
pub(crate) fn spot_of(number: Option<usize>) -> Spot
    requires { IfSome number (λ n. n < 32) }
    ensures { result ≡ spot_of (unwrap_or number 32) }
{
    match number {
        Some(place) => Spot {
            found: true,
            place: place as u8,
        },
        None => Spot {
            found: false,
            place: 0,
        },
    }
}
