// The grounds of refusal 1 that lie in the places, one function each.
ghost use Rattle.std.specs.Prelude.{◌≡◌, ◌<◌};
ghost use Rattle.profile.specs.Counting.{every};
ghost use Rattle.places.specs.Held.{place_in};
ghost use Rattle.places.specs.Grounds.{second_ok, call_ok, apart, alone_at, under_ceiling};

use crate::{Place, count};
use profile::Shares;

// Every waiting call has an identifier of 14 bits and a cause of 5, and its post and its second post are below the number of posts.
pub(crate) fn calls_ok(posts: u8, list: [Place; 32]) -> bool
    ensures { result ≡ every 32 (λ i. call_ok posts (place_in list i)) }
{
    list.iter().all(|p| call_ok(posts, *p))
}

#[tactic(auto, unfolding(crate::specs::Grounds::call_ok, codec::specs::Codec::both))]
fn call_ok(posts: u8, p: Place) -> bool
    ensures { result ≡ call_ok posts p }
{
    !p.used || p.identifier < 0x4000 && p.post < posts && second_ok(posts, p) && p.cause < 0x20
}

#[tactic(auto, unfolding(crate::specs::Grounds::second_ok))]
fn second_ok(posts: u8, p: Place) -> bool
    ensures { result ≡ second_ok posts p }
{
    !p.more || p.second < posts
}

// No two waiting calls have one identifier: no lower place has that of place i. Both loops stand in one function, since another would
// have the list copied for each place.
pub(crate) fn all_alone(list: [Place; 32]) -> bool
    ensures { result ≡ every 32 (λ i. alone_at list i) }
{
    for i in 0..Shares::PLACES {
        // read once for all lower ones: a free place is then passed at once
        let p = list[i];
        for j in 0..i {
            if !apart(p, list[j]) {
                return false;
            }
        }
    }
    true
}

#[tactic(auto, unfolding(crate::specs::Grounds::apart, codec::specs::Codec::both))]
fn apart(p: Place, q: Place) -> bool
    ensures { result ≡ apart p q }
{
    !p.used || !q.used || p.identifier != q.identifier
}

// No post is over its ceiling.
pub(crate) fn under_ceilings(shares: Shares, list: [Place; 32]) -> bool
    ensures { result ≡ every shares.posts (λ p. under_ceiling shares list p) }
{
    for p in 0..shares.posts {
        if !under_ceiling(shares, list, p) {
            return false;
        }
    }
    true
}

#[tactic(auto, unfolding(crate::specs::Grounds::under_ceiling))]
fn under_ceiling(shares: Shares, list: [Place; 32], post: u8) -> bool
    ensures { result ≡ under_ceiling shares list post }
{
    count::held(list, post) <= count::share_of(shares.share, post).ceiling
}
