// The 32 places of a desk, in which calls wait, and the posts' shares of them (document 01, "Places"): what a post holds and is owed, and
// whether a call for it is admitted. Nothing is counted but what waits in the places: no count is stored.
//
// Every function is total: its contract is an equation for any shares and places, also such as refusal 1 names; refusing those is the
// caller's, by `places_ok`. Shares and places are handed on as two, as the definitions take them. The files: count (held, owed), ground (the grounds of refusal 1), search (the lowest place).
#![tactic(auto)]

ghost use Rattle.std.specs.Prelude.{◌≡◌, set};
ghost use Rattle.places.specs.Held.{place_in, admits_of};
ghost use Rattle.places.specs.Fits.{fits_of};
ghost use Rattle.places.specs.Grounds.{places_ok};
ghost use Rattle.places.specs.Spots.{place_of, lowest_free, take_of, clear_of, move_of};

use profile::Shares;

mod count;
mod ground;
mod search;

// A place for one waiting call; where it is not used, what else it holds is never looked at. A desk is lent with any bytes there: an
// `Option<Call>` would ask more of the host.
#[derive(Clone, Copy)]
pub struct Place {
    pub used: bool,
    pub identifier: u16,
    pub post: u8,
    pub more: bool,
    pub second: u8,
    pub cause: u8,
}

pub const FREE: Place = Place {
    used: false,
    identifier: 0,
    post: 0,
    more: false,
    second: 0,
    cause: 0,
};

// A waiting call: its identifier, the post where it waits, if one more is asked after that the second post (otherwise `second` is never
// looked at), and its interception cause. `take` writes `second` down as it comes (`place_for`), so it is no Option.
#[derive(Clone, Copy)]
pub struct Call {
    pub identifier: u16,
    pub post: u8,
    pub more: bool,
    pub second: u8,
    pub cause: u8,
}

#[derive(Clone, Copy)]
pub struct Places {
    pub place: [Place; 32],
}

// A place's number, or none; then `place` is 0. No Option: the desk's definitions (`accept_answer`, `places_after`) are total and take
// `place` where none is found too.
#[derive(Clone, Copy)]
pub struct Spot {
    pub found: bool,
    pub place: u8,
}

// What refusal 1 asks of the places of a lent desk.
#[tactic(auto, unfolding(crate::specs::Grounds::places_ok, codec::specs::Codec::both))]
pub fn places_ok(shares: Shares, places: Places) -> bool
    ensures { result ≡ places_ok shares places.place }
{
    ground::calls_ok(shares.posts, places.place)
        && ground::all_alone(places.place)
        && ground::under_ceilings(shares, places.place)
        && count::load(shares, places.place) <= Shares::PLACES
}

// These shares fit the calls that wait: no post holds more than its ceiling, and the 32 places are enough for what each post has a claim to.
#[tactic(auto, unfolding(crate::specs::Fits::fits_of, codec::specs::Codec::both))]
pub fn fits(shares: Shares, places: Places) -> bool
    ensures { result ≡ fits_of shares places.place }
{
    ground::under_ceilings(shares, places.place)
        && count::claims(shares, places.place) as usize <= Shares::PLACES
}

// The places rule: whether a call for the post is admitted.
#[tactic(auto, unfolding(crate::specs::Held::admits_of, codec::specs::Codec::both))]
pub fn admits(shares: Shares, places: Places, post: u8) -> bool
    ensures { result ≡ admits_of shares places.place post }
{
    let share = count::share_of(shares.share, post);
    let held = count::held(places.place, post);
    held < share.ceiling
        && (held < share.reserved
            || count::free(places.place) > count::owed_others(shares, places.place, post) as usize)
}

// The place where the call with this identifier waits, the lowest such.
pub fn place_of(places: Places, identifier: u32) -> Spot
    ensures { result ≡ place_of places.place identifier }
{
    search::spot_of(search::call_number(places.place, identifier))
}

// The lowest-numbered free place.
pub fn lowest_free(places: Places) -> Spot
    ensures { result ≡ lowest_free places.place }
{
    search::spot_of(search::free_number(places.place))
}

// The call waits at the place from now on, whatever was there; a number of no place changes nothing.
#[tactic(auto, unfolding(crate::specs::Spots::take_of))]
pub fn take(places: Places, at: u8, call: Call) -> Places
    ensures { result ≡ record { place = take_of places.place at call } }
{
    let waiting = Place {
        used: true,
        identifier: call.identifier,
        post: call.post,
        more: call.more,
        second: call.second,
        cause: call.cause,
    };
    put(places, at, waiting)
}

// The place is free from now on, and all zero; a number of no place changes nothing.
#[tactic(auto, unfolding(crate::specs::Spots::clear_of))]
pub fn clear(places: Places, at: u8) -> Places
    ensures { result ≡ record { place = clear_of places.place at } }
{
    put(places, at, FREE)
}

// What is in the place; a number of no place has nothing in it.
#[tactic(auto, unfolding(crate::specs::Held::place_in))]
pub fn place_at(places: Places, at: u8) -> Place
    ensures { result ≡ place_in places.place at }
{
    places.place.get(at as usize).copied().unwrap_or(FREE)
}

// The call in the place waits at its second post from now on, with its cause, and has no second any more; a number of no place changes nothing.
#[tactic(auto, unfolding(crate::specs::Spots::move_of))]
pub fn move_on(places: Places, at: u8) -> Places
    ensures { result ≡ record { place = move_of places.place at } }
{
    let p = place_at(places, at);
    let call = Call {
        identifier: p.identifier,
        post: p.second,
        more: false,
        second: 0,
        cause: p.cause,
    };
    take(places, at, call)
}

// One place overwritten; there is none from number 32 on.
fn put(places: Places, at: u8, p: Place) -> Places
    ensures { result ≡ record { place = set places.place at p } }
{
    let i = at as usize;
    let mut next = places;
    if i < Shares::PLACES {
        next.place[i] = p;
    }
    next
}
