// The identities of a group of addresses, in order.
ghost use Rattle.std.specs.Prelude.{◌≡◌, ◌-◌, ◌<◌, ◌≤◌, get_or};
ghost use Rattle.message.specs.Addresses.{nobody};
ghost use Rattle.message.specs.Groups.{span_in};
ghost use Rattle.records.specs.Identities.{identity_of, later, identity_in, identity_at, count_of};

use crate::Identity;
use message::{Address, Group};
use profile::{Air, Kind, Meaning};

const NO_IDENTITY: Identity = Identity {
    ssi: 0,
    extension: 0,
};

// Kind 1 has the home extension.
#[tactic(auto, unfolding(crate::specs::Identities::identity_of))]
pub(crate) fn identity_of(air: Air, address: Address) -> Identity
    ensures { result ≡ identity_of air address }
{
    Identity {
        ssi: address.ssi,
        extension: if address.kind == 1 {
            air.home
        } else {
            address.extension
        },
    }
}

// How many identities a group has, at most 64.
#[tactic(auto, unfolding(crate::specs::Identities::count_of))]
pub(crate) fn count_of(air: Air, group: Group) -> usize
    ensures { result ≡ count_of air group }
{
    message::span_of(air, group).min(Group::IDENTITIES)
}

// Identity k of a group.
#[tactic(auto, using(crate::proofs::IdentityLaws::count_in), unfolding(crate::specs::Identities::identity_at))]
pub(crate) fn identity_at(air: Air, group: Group, k: usize) -> Identity
    requires { k < count_of air group }
    ensures { result ≡ identity_at air group k }
{
    identity_in(
        air,
        profile::meaning_of(air.meanings, group.range),
        group.addresses,
        k,
    )
}

#[tactic(auto, unfolding(crate::specs::Identities::identity_in))]
fn identity_in(air: Air, m: Meaning, list: [Address; 15], k: usize) -> Identity
    requires { k < span_in m list }
    ensures { result ≡ identity_in air m list k }
{
    match m.kind {
        Kind::Listed => identity_of(air, nth(list, k)),
        Kind::FirstLast => identity_after(identity_of(air, list[0]), k, list[1].ssi),
        Kind::Nobody | Kind::Reserved => NO_IDENTITY,
    }
}

// The identity k after this one. It is not past the SSI `last`, so that the sum is a number of 32 bits.
#[tactic(auto, unfolding(crate::specs::Identities::later))]
fn identity_after(id: Identity, k: usize, last: u32) -> Identity
    requires { k ≤ last - id.ssi }
    ensures { result ≡ later id k }
{
    Identity {
        ssi: id.ssi + k as u32,
        extension: id.extension,
    }
}

// In a function of its own, with the one clause that its users want.
fn nth(list: [Address; 15], k: usize) -> Address
    ensures { result ≡ get_or list k nobody }
{
    list.get(k).copied().unwrap_or(message::NOBODY)
}
