// Rows put together from their parts.
ghost use Rattle.std.specs.Prelude.{◌≡◌, ◌≤◌, [], ◌∷◌};
ghost use Rattle.message.specs.Rows.{slots, row, ack_row, identifier, cause, users, masked, of_request, of_restriction};
ghost use Rattle.message.specs.declared.Part.TheVariants.{Interrogation};

use crate::{Part, Row, Slot};

const NOTHING: Slot = Slot {
    part: Part::Nothing,
};

// The row of a type that is not carried.
pub(crate) const NO_ROW: Row = Row {
    carried: false,
    count: 0,
    parts: [NOTHING; 6],
    options: 0,
    optional: [NOTHING; 7],
};

// Parts one after the other, and options under one O-bit.
pub(crate) fn row<const N: usize, const M: usize>(parts: [Part; N], options: [Part; M]) -> Row
    requires parts { N ≤ 6 }
    requires options { M ≤ 7 }
    ensures { result ≡ row parts.entry options.entry }
{
    Row {
        carried: true,
        count: N as u8,
        parts: slots(parts),
        options: M as u8,
        optional: slots(options),
    }
}

// So many slots, with these parts in the first ones.
fn slots<const N: usize, const M: usize>(parts: [Part; N]) -> [Slot; M]
    requires { N ≤ M }
    ensures { result ≡ slots M parts.entry }
{
    let mut slots = [NOTHING; M];
    for i in 0..N {
        slots[i] = Slot { part: parts[i] };
    }
    slots
}

// What every ACK has: the request's users, a mask, a result.
pub(crate) fn ack() -> Row
    ensures { result ≡ ack_row }
{
    row([Part::Users, Part::Masked, Part::Result], [])
}

// Identifier and cause, then the calling, the called, the network, the areas and the basic services of both.
pub(crate) fn request() -> Row
    ensures { result ≡ row (identifier ∷ cause ∷ []) of_request }
{
    row(
        [
            Part::Number(crate::IDENTIFIER_AT),
            Part::Number(crate::CAUSE_AT),
        ],
        [
            Part::User(0),
            Part::User(1),
            Part::Number(crate::MNI_AT),
            Part::Number(crate::CALLING_AREA_AT),
            Part::Number(crate::CALLED_AREA_AT),
            Part::Number(crate::CALLING_SERVICE_AT),
            Part::Number(crate::CALLED_SERVICE_AT),
        ],
    )
}

// As every ACK with a state for its result, then what the restriction covers.
pub(crate) fn interrogate_ack() -> Row
    ensures { result ≡ row (users ∷ masked ∷ Interrogation ∷ []) of_restriction }
{
    row(
        [Part::Users, Part::Masked, Part::Interrogation],
        [
            Part::Dispatchers,
            Part::Sources,
            Part::Destinations,
            Part::Areas,
        ],
    )
}
