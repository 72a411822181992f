// The messages' vocabulary: addresses, groups of them, one flat value for all messages, and each message as a row of parts. specs/ has
// each part as a codec (document 01, "Bits on the air"), and proofs/ that each row of them is a good one, so that both round trips are
// there for the asking.
//
// The functions are the small ones that reading, validity, writing and the desk share. Each takes every input.
#![tactic(auto)]

ghost use Rattle.std.specs.Prelude.{◌≡◌, true, ◌+◌, ◌-◌};
ghost use Rattle.message.specs.Groups.{addresses_in, allowed_in, range_ok, ends_ok, no_group, address_at, with_address, span_in, span_of};
ghost use Rattle.message.specs.Areas.{rises};
ghost use Rattle.message.specs.Numbers.{element_of, width_of};
ghost use Rattle.message.specs.Values.{no_lists, blank, number_at, given_at, with_number, with_users, with_mask, with_dispatchers, with_sources, with_destinations, with_areas, with_given};
ghost use Rattle.message.specs.Rows.{row, row_of, put, get, copy_of, copy_option};
ghost use Rattle.message.specs.Messages.{is_carried};
ghost use Rattle.message.specs.declared.Part.TheVariants.{User, Result, Dispatcher, Interrogation};

use profile::{Air, Kind, Meaning};
use rows::{NO_ROW, row};

mod rows;

// With kind 1 the extension is not on the air, and zero. The kind is a number and no enum: C hands over any byte, and what `valid` refuses,
// as kind 3 in row 100 of the rounds, has to be a value.
#[derive(Clone, Copy, PartialEq, Eq)]
pub struct Address {
    pub kind: u8,
    pub ssi: u32,
    pub extension: u32,
}

// A range number and the addresses that its meaning has; the places beyond are zero.
#[derive(Clone, Copy, PartialEq, Eq)]
pub struct Group {
    pub range: u8,
    pub addresses: [Address; 15],
}

// A range number and the areas that its meaning has; the places beyond are zero.
#[derive(Clone, Copy, PartialEq, Eq)]
pub struct Areas {
    pub range: u8,
    pub areas: [u8; 15],
}

// What a restriction covers beside its dispatchers.
#[derive(Clone, Copy, PartialEq, Eq)]
pub struct Lists {
    pub sources: Group,
    pub destinations: Group,
    pub areas: Areas,
}

// What INTERROGATE ACK says of its users: a result; where it is 0 a reason, and where it is 1 the rest. Numbers and no enum: `valid` refuses
// others (rows 129 to 137 of the rounds), so they have to be values.
#[derive(Clone, Copy)]
pub struct State {
    pub result: u32,
    pub reason: u32,
    pub activation: u32,
    pub interception: u32,
    pub called: u32,
    pub calling: u32,
}

// A message. All that it doesn't carry is zero. A number stands at its place (specs/Numbers); `given` says which of the row's options are
// there. INTERROGATE's address is user address 0, REQUEST's calling and called are user addresses 0 and 1, the dispatcher of INTERCEPTED,
// DIVERTED and REJECTED is dispatcher address 0, all with range number 0. Identity i, from 0, is bit 63 − i of the mask.
// The type is a number and no enum, and neither the mask nor an option an Option: C hands over any bytes, and `valid` refuses other types, an
// option's part that is not given and not zero, and a mask that is not zero where there is none (rows 29 and 104 of the rounds).
#[derive(Clone, Copy, PartialEq, Eq)]
pub struct Value {
    pub pdu: u8,
    pub numbers: [u32; 12],
    pub users: Group,
    pub masked: bool,
    pub mask: u64,
    pub given: [bool; 7],
    pub dispatchers: Group,
    pub lists: Lists,
}

// What a message has next: a number at its place, a group or the address at one of its places, a mask, a result with its reason, a state,
// areas. (An array holds the first variant past its end.)
#[derive(Clone, Copy)]
pub enum Part {
    Nothing,
    Number(u8),
    Users,
    User(u8),
    Masked,
    Result,
    Dispatchers,
    Dispatcher,
    Interrogation,
    Sources,
    Destinations,
    Areas,
}

// A struct of its own, since the contracts of reading, validity, writing and console speak of slots (`first_parts`), as of a row's count.
#[derive(Clone, Copy)]
pub struct Slot {
    pub part: Part,
}

// A message after the first 11 bits: so many parts, one after the other, then so many options under one O-bit. `carried` is a flag: `row_of` of
// specs/ has a row for every type.
#[derive(Clone, Copy)]
pub struct Row {
    pub carried: bool,
    pub count: u8,
    pub parts: [Slot; 6],
    pub options: u8,
    pub optional: [Slot; 7],
}

impl Group {
    // What a first-and-last range may name at most.
    pub const IDENTITIES: usize = 64;
}

// No address.
pub const NOBODY: Address = Address {
    kind: 0,
    ssi: 0,
    extension: 0,
};

// No area.
pub const NO_AREAS: Areas = Areas {
    range: 0,
    areas: [0; 15],
};

// ---- what a range value's meaning asks for

// How many addresses follow.
#[tactic(auto, unfolding(crate::specs::Groups::addresses_in))]
pub fn addresses_in(m: Meaning) -> usize
    ensures { result ≡ addresses_in m }
{
    match m.kind {
        Kind::Listed => m.count as usize,
        Kind::FirstLast => 2,
        Kind::Nobody | Kind::Reserved => 0,
    }
}

// A meaning is not refused with 9; `none` says whether "none" is good.
#[tactic(auto, unfolding(crate::specs::Groups::allowed_in))]
pub fn allowed(none: bool, m: Meaning) -> bool
    ensures { result ≡ allowed_in none m }
{
    match m.kind {
        Kind::Listed => profile::list_ok(m.count),
        Kind::FirstLast => true,
        Kind::Nobody => none,
        Kind::Reserved => false,
    }
}

// The addresses are not refused with 11.
#[tactic(auto, unfolding(crate::specs::Groups::ends_ok))]
pub fn ends_ok(m: Meaning, list: [Address; 15]) -> bool
    ensures { result ≡ ends_ok m list }
{
    match m.kind {
        Kind::FirstLast => range_ok(list[0], list[1]),
        Kind::Listed | Kind::Nobody | Kind::Reserved => true,
    }
}

// First and last of a range of areas are not refused with 11.
#[tactic(auto, unfolding(crate::specs::Areas::rises))]
pub fn areas_rise(m: Meaning, list: [u8; 15]) -> bool
    ensures { result ≡ rises m list }
{
    match m.kind {
        Kind::FirstLast => list[0] <= list[1],
        Kind::Listed | Kind::Nobody | Kind::Reserved => true,
    }
}

// How many identities a group names.
#[tactic(auto, unfolding(crate::specs::Groups::span_of))]
pub fn span_of(air: Air, group: Group) -> usize
    ensures { result ≡ span_of air group }
{
    span_in(
        profile::meaning_of(air.meanings, group.range),
        group.addresses,
    )
}

// First and last have one kind and one extension, don't fall, and name at most 64 identities.
#[tactic(auto, unfolding(crate::specs::Groups::range_ok, codec::specs::Codec::both))]
pub fn range_ok(first: Address, last: Address) -> bool
    ensures { result ≡ range_ok first last }
{
    first.kind == last.kind
        && first.extension == last.extension
        && first.ssi <= last.ssi
        && span(first.ssi, last.ssi) <= Group::IDENTITIES
}

#[tactic(auto, unfolding(crate::specs::Groups::span_in))]
fn span_in(m: Meaning, list: [Address; 15]) -> usize
    ensures { result ≡ span_in m list }
{
    match m.kind {
        Kind::FirstLast => span(list[0].ssi, list[1].ssi),
        Kind::Listed => m.count as usize,
        Kind::Nobody | Kind::Reserved => 0,
    }
}

// Both ends count; a range that falls counts as one.
pub fn span(first: u32, last: u32) -> usize
    ensures { result ≡ last - first + 1 }
{
    last.saturating_sub(first) as usize + 1
}

// ---- the messages

// The elements by number (specs/Elements). They are no enum: `codec::take` and each `Stop` carry the number, and `cad_read_at` tells C of it.
pub const SS_TYPE: u8 = 1;

pub const PDU_TYPE: u8 = 2;

pub const RANGE: u8 = 3;

pub const KIND: u8 = 4;

pub const SSI: u8 = 5;

pub const EXTENSION: u8 = 6;

pub const MASK_PRESENT: u8 = 7;

pub const MASK: u8 = 8;

pub const RESULT: u8 = 9;

pub const REASON: u8 = 10;

pub const CAUSE: u8 = 11;

pub const IDENTIFIER: u8 = 12;

pub const O_BIT: u8 = 13;

pub const P_BIT: u8 = 14;

pub const MNI: u8 = 15;

pub const AREA: u8 = 16;

pub const BASIC_SERVICE: u8 = 17;

pub const ACTIVATION_TYPE: u8 = 18;

pub const INTERCEPTION_TYPE: u8 = 19;

pub const TYPE_OF_RESTRICTION: u8 = 20;

// The places of the numbers (specs/Numbers). They are no enum: `number_at` and `with_number` take any number and say what lies past the last.
pub const IDENTIFIER_AT: u8 = 0;

pub const CAUSE_AT: u8 = 1;

pub const RESULT_AT: u8 = 2;

pub const REASON_AT: u8 = 3;

pub const MNI_AT: u8 = 4;

pub const CALLING_AREA_AT: u8 = 5;

pub const CALLED_AREA_AT: u8 = 6;

pub const CALLING_SERVICE_AT: u8 = 7;

pub const CALLED_SERVICE_AT: u8 = 8;

pub const ACTIVATION_TYPE_AT: u8 = 9;

pub const INTERCEPTION_TYPE_AT: u8 = 10;

// Two rows, as specs/Numbers has them.
const ELEMENTS: [u8; 12] = [
    IDENTIFIER,
    CAUSE,
    RESULT,
    REASON,
    MNI,
    AREA,
    AREA,
    BASIC_SERVICE,
    BASIC_SERVICE,
    ACTIVATION_TYPE,
    INTERCEPTION_TYPE,
    TYPE_OF_RESTRICTION,
];

const WIDTHS: [usize; 12] = [14, 5, 1, 7, 24, 4, 4, 2, 2, 1, 1, 4];

// Which element the number at a place is.
#[tactic(auto, unfolding(crate::specs::Numbers::element_of, crate::specs::Numbers::elements))]
pub fn element_of(place: u8) -> u8
    ensures { result ≡ element_of place }
{
    ELEMENTS.get(place as usize).copied().unwrap_or(0)
}

// How many bits it has.
#[tactic(auto, unfolding(crate::specs::Numbers::width_of, crate::specs::Numbers::widths))]
pub fn width_of(place: u8) -> usize
    ensures { result ≡ width_of place }
{
    WIDTHS.get(place as usize).copied().unwrap_or(0)
}

const IDENTIFIER_PART: Part = Part::Number(IDENTIFIER_AT);

const CAUSE_PART: Part = Part::Number(CAUSE_AT);

// The table of documents 01 and 02: what each message has after the first 11 bits; any other type is not carried.
#[tactic(auto, unfolding(crate::specs::Rows::row_of, crate::specs::Rows::row_in, crate::specs::Rows::table))]
pub fn row_of(pdu: u8) -> Row
    ensures { result ≡ row_of pdu }
{
    match pdu {
        // ACTIVATE
        2 => row([Part::Users], [Part::Dispatchers]),
        // ACTIVATE ACK, DEACTIVATE ACK
        3 | 5 => rows::ack(),
        // DEACTIVATE
        4 => row([Part::Users], []),
        // INTERROGATE
        8 => row([Part::User(0)], []),
        // INTERROGATE ACK
        9 => rows::interrogate_ack(),
        // INTERCEPTED, DIVERTED, REJECTED
        10 | 16 | 18 => row([CAUSE_PART], [Part::Dispatcher]),
        // REQUEST
        11 => rows::request(),
        // ACCEPT, CANCEL, DIVERT
        12 | 14 | 15 => row([IDENTIFIER_PART], []),
        // ACCEPTED
        13 => row([], []),
        // REJECT
        17 => row([IDENTIFIER_PART, CAUSE_PART], []),
        _ => NO_ROW,
    }
}

// The types that are carried.
#[tactic(auto, unfolding(crate::specs::Messages::is_carried))]
pub fn is_carried(pdu: u8) -> bool
    ensures { result ≡ is_carried pdu }
{
    row_of(pdu).carried
}

// ---- what is in a group and in a value

// A group's address at a place; none past the last place.
pub fn address_at(group: Group, place: u8) -> Address
    ensures { result ≡ address_at place group }
{
    group
        .addresses
        .get(place as usize)
        .copied()
        .unwrap_or(NOBODY)
}

// The number at a place; 0 past the last.
pub fn number_at(value: Value, place: u8) -> u32
    ensures { result ≡ number_at place value }
{
    let numbers = value.numbers;
    numbers.get(place as usize).copied().unwrap_or(0)
}

// The option of that number in its row is there.
pub fn given_at(value: Value, option: usize) -> bool
    ensures { result ≡ given_at option value }
{
    let given = value.given;
    given.get(option).copied().unwrap_or(false)
}

// What INTERROGATE ACK says.
pub fn state_in(value: Value) -> State
    ensures { result ≡ get Interrogation value }
{
    State {
        result: value.numbers[RESULT_AT as usize],
        reason: value.numbers[REASON_AT as usize],
        activation: value.numbers[ACTIVATION_TYPE_AT as usize],
        interception: value.numbers[INTERCEPTION_TYPE_AT as usize],
        called: value.numbers[CALLED_SERVICE_AT as usize],
        calling: value.numbers[CALLING_SERVICE_AT as usize],
    }
}

// ---- groups and values

#[tactic(auto, unfolding(crate::specs::Groups::no_group, crate::specs::Groups::nobodies))]
pub fn no_group() -> Group
    ensures { result ≡ no_group }
{
    Group {
        range: 0,
        addresses: [NOBODY; 15],
    }
}

// A message of this type with nothing in it.
#[tactic(auto, unfolding(crate::specs::Values::blank, crate::specs::Values::no_lists, crate::specs::Areas::no_areas))]
pub fn blank(pdu: u8) -> Value
    ensures { result ≡ blank pdu }
{
    let none = no_group();
    Value {
        pdu,
        numbers: [0; 12],
        users: none,
        masked: false,
        mask: 0,
        given: [false; 7],
        dispatchers: none,
        lists: Lists {
            sources: none,
            destinations: none,
            areas: NO_AREAS,
        },
    }
}

// Each of these is the value with one thing in it changed; at a place that is not there all stays. A place is written by its index: of an array
// whose `get_mut` was taken the proof knows the length alone (tried).

pub fn with_number(value: Value, place: u8, n: u32) -> Value
    ensures { result ≡ with_number place n value }
{
    let mut v = value;
    if (place as usize) < v.numbers.len() {
        v.numbers[place as usize] = n;
    }
    v
}

pub fn with_users(value: Value, users: Group) -> Value
    ensures { result ≡ with_users users value }
{
    let mut v = value;
    v.users = users;
    v
}

pub fn with_user(value: Value, place: u8, user: Address) -> Value
    ensures { result ≡ put (User place) user value }
{
    with_users(value, with_address(value.users, place, user))
}

pub fn with_mask(value: Value, masked: bool, mask: u64) -> Value
    ensures { result ≡ with_mask masked mask value }
{
    let mut v = value;
    v.masked = masked;
    v.mask = mask;
    v
}

pub fn with_result(value: Value, res: u32, reason: u32) -> Value
    ensures { result ≡ put Result (res, reason) value }
{
    with_number(with_number(value, RESULT_AT, res), REASON_AT, reason)
}

pub fn with_dispatchers(value: Value, dispatchers: Group) -> Value
    ensures { result ≡ with_dispatchers dispatchers value }
{
    let mut v = value;
    v.dispatchers = dispatchers;
    v
}

pub fn with_dispatcher(value: Value, dispatcher: Address) -> Value
    ensures { result ≡ put Dispatcher dispatcher value }
{
    with_dispatchers(value, with_address(value.dispatchers, 0, dispatcher))
}

pub fn with_state(value: Value, state: State) -> Value
    ensures { result ≡ put Interrogation state value }
{
    let v = with_number(value, RESULT_AT, state.result);
    let v = with_number(v, REASON_AT, state.reason);
    let v = with_number(v, ACTIVATION_TYPE_AT, state.activation);
    let v = with_number(v, INTERCEPTION_TYPE_AT, state.interception);
    let v = with_number(v, CALLED_SERVICE_AT, state.called);
    with_number(v, CALLING_SERVICE_AT, state.calling)
}

pub fn with_sources(value: Value, sources: Group) -> Value
    ensures { result ≡ with_sources sources value }
{
    let mut v = value;
    v.lists.sources = sources;
    v
}

pub fn with_destinations(value: Value, destinations: Group) -> Value
    ensures { result ≡ with_destinations destinations value }
{
    let mut v = value;
    v.lists.destinations = destinations;
    v
}

pub fn with_areas(value: Value, areas: Areas) -> Value
    ensures { result ≡ with_areas areas value }
{
    let mut v = value;
    v.lists.areas = areas;
    v
}

// The group with another address at a place; past the last place all stays.
fn with_address(group: Group, place: u8, address: Address) -> Group
    ensures { result ≡ with_address place address group }
{
    let mut g = group;
    if (place as usize) < g.addresses.len() {
        g.addresses[place as usize] = address;
    }
    g
}

// The option of that number in its row is there from now on.
pub fn with_given(value: Value, option: usize) -> Value
    ensures { result ≡ with_given option true value }
{
    let mut v = value;
    if option < v.given.len() {
        v.given[option] = true;
    }
    v
}

// What a part holds in one value, put into another.
pub fn copied(part: Part, from: Value, to: Value) -> Value
    ensures { result ≡ copy_of part from to }
{
    match part {
        Part::Nothing => to,
        Part::Number(place) => with_number(to, place, number_at(from, place)),
        Part::Users => with_users(to, from.users),
        Part::User(place) => with_user(to, place, address_at(from.users, place)),
        Part::Masked => with_mask(to, from.masked, from.mask),
        Part::Result => with_result(to, number_at(from, RESULT_AT), number_at(from, REASON_AT)),
        Part::Dispatchers => with_dispatchers(to, from.dispatchers),
        Part::Dispatcher => with_dispatcher(to, address_at(from.dispatchers, 0)),
        Part::Interrogation => with_state(to, state_in(from)),
        Part::Sources => with_sources(to, from.lists.sources),
        Part::Destinations => with_destinations(to, from.lists.destinations),
        Part::Areas => with_areas(to, from.lists.areas),
    }
}

// The same of a part that is the row's option of that number: nothing where it is not there.
pub fn copied_option(option: usize, part: Part, from: Value, to: Value) -> Value
    ensures { result ≡ copy_option option part from to }
{
    if given_at(from, option) {
        with_given(copied(part, from, to), option)
    } else {
        to
    }
}
