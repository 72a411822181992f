// Rows 109 to 155: INTERROGATE ACK, mostly of user 1001.
use crate::{address, four, group, marked, show, sixty_four, stranger, user};
use message::{Address, Areas, Group, State, Value};

pub(crate) fn rows() {
    answers();
    options();
    areas_alone();
    masks();
    sizes();
    failures_not_valid();
    states_not_valid();
    others_not_valid();
    users_not_valid();
    options_absent();
    lists_not_valid();
    areas_not_valid();
    type_not_valid();
}

// ---- the rows

fn answers() {
    show::row(109, activated(), 48);
    show::row(110, not_activated(), 48);
    show::row(111, failed(1), 48);
    show::row(112, and_areas(failed(1), areas(15, 3, 5, 0)), 48);
    show::row(113, four_options(), 48);
    show::row(114, intercepted(1, 2), 48);
}

fn options() {
    show::row(115, and_dispatchers(activated(), message::no_group()), 48);
    show::row(116, and_sources(failed(7), message::no_group()), 48);
    show::row(
        117,
        and_destinations(
            failed(0),
            group(3, stranger(16777215, 16777215), user(0), stranger(1, 0)),
        ),
        48,
    );
}

fn areas_alone() {
    show::row(118, and_areas(not_activated(), message::NO_AREAS), 48);
    show::row(119, activated_in(areas(15, 15, 15, 0)), 48);
    show::row(120, activated_in(areas(15, 0, 15, 0)), 48);
    show::row(121, activated_in(areas(3, 9, 0, 0)), 48);
}

fn masks() {
    show::row(
        122,
        of_users(activated(), four(), 0xC000_0000_0000_0000),
        48,
    );
    show::row(123, of_users(failed(2), four(), 0), 48);
    show::row(124, longest(), 96);
}

fn sizes() {
    show::row(125, four_options(), 30);
    show::row(126, four_options(), 29);
    show::row(127, failed(1), 6);
    show::row(128, failed(1), 5);
}

fn failures_not_valid() {
    show::row(129, failed(8), 12);
    show::row(130, failed_but(message::ACTIVATION_TYPE_AT, 1), 12);
    show::row(131, failed_but(message::INTERCEPTION_TYPE_AT, 1), 12);
    show::row(132, failed_but(message::CALLING_SERVICE_AT, 1), 12);
}

fn states_not_valid() {
    show::row(133, activated_but(message::REASON_AT, 1), 12);
    show::row(134, activated_but(message::ACTIVATION_TYPE_AT, 2), 12);
    show::row(135, activated_but(message::INTERCEPTION_TYPE_AT, 2), 12);
    show::row(136, activated_but(message::CALLED_SERVICE_AT, 4), 12);
    show::row(137, activated_but(message::RESULT_AT, 2), 12);
}

fn others_not_valid() {
    show::row(138, activated_but(message::CAUSE_AT, 1), 12);
    show::row(139, message::with_given(activated(), 4), 12);
    show::row(140, activated_but(message::MNI_AT, 5), 12);
    show::row(141, activated_but(message::CALLING_AREA_AT, 1), 12);
}

fn users_not_valid() {
    show::row(
        142,
        message::with_users(activated(), pair(0, user(1001), message::NOBODY)),
        12,
    );
    show::row(
        143,
        message::with_mask(activated(), false, 0x8000_0000_0000_0000),
        12,
    );
}

fn options_absent() {
    show::row(144, marked(four_options(), BUT_DISPATCHERS), 12);
    show::row(145, marked(four_options(), BUT_SOURCES), 12);
    show::row(146, marked(four_options(), BUT_DESTINATIONS), 12);
    show::row(147, marked(four_options(), BUT_AREAS), 12);
}

fn lists_not_valid() {
    let third_kind = address(3, 1004, 0);
    show::row(
        148,
        message::with_destinations(four_options(), pair(15, third_kind, user(1004))),
        12,
    );
    show::row(
        149,
        message::with_sources(four_options(), pair(2, third_kind, user(1004))),
        12,
    );
    show::row(
        150,
        message::with_sources(four_options(), pair(4, stranger(1001, 5), user(1004))),
        12,
    );
}

fn areas_not_valid() {
    show::row(151, activated_in(areas(15, 5, 3, 0)), 12);
    show::row(152, activated_in(areas(2, 1, 16, 0)), 12);
    show::row(153, activated_in(areas(14, 1, 0, 0)), 12);
    show::row(154, activated_in(areas(1, 1, 1, 0)), 12);
}

fn type_not_valid() {
    let mut value = activated();
    value.pdu = 3;
    show::row(155, value, 12);
}

// ---- their values

// INTERROGATE ACK's options but the dispatchers, but the sources, but the destinations, but the areas.
const BUT_DISPATCHERS: [bool; 7] = [false, true, true, true, false, false, false];

const BUT_SOURCES: [bool; 7] = [true, false, true, true, false, false, false];

const BUT_DESTINATIONS: [bool; 7] = [true, true, false, true, false, false, false];

const BUT_AREAS: [bool; 7] = [true, true, true, false, false, false, false];

fn activated() -> Value {
    accepted(1, 0, 0, 0)
}

fn activated_but(place: u8, n: u32) -> Value {
    message::with_number(activated(), place, n)
}

fn activated_in(some: Areas) -> Value {
    and_areas(activated(), some)
}

fn not_activated() -> Value {
    accepted(0, 0, 0, 0)
}

// Activated, with interception type 1.
fn intercepted(calling: u32, called: u32) -> Value {
    accepted(1, 1, calling, called)
}

fn four_options() -> Value {
    let value = and_dispatchers(accepted(1, 0, 3, 0), pair(1, user(1004), message::NOBODY));
    let value = and_sources(value, pair(2, stranger(1001, 5), user(1004)));
    and_areas(and_destinations(value, four()), areas(3, 1, 15, 0))
}

fn longest() -> Value {
    let three = group(
        3,
        stranger(16777215, 16777215),
        stranger(0, 0),
        stranger(1, 16777215),
    );
    let value = of_users(intercepted(3, 3), sixty_four(), 0xFFFF_FFFF_FFFF_FFFF);
    let value = and_sources(and_dispatchers(value, three), three);
    and_areas(and_destinations(value, three), areas(3, 15, 15, 15))
}

// Result 1, with the services of the calling and of the called.
fn accepted(activation: u32, interception: u32, calling: u32, called: u32) -> Value {
    answer(State {
        result: 1,
        reason: 0,
        activation,
        interception,
        called,
        calling,
    })
}

// Result 0.
fn failed(reason: u32) -> Value {
    answer(State {
        result: 0,
        reason,
        activation: 0,
        interception: 0,
        called: 0,
        calling: 0,
    })
}

fn failed_but(place: u8, n: u32) -> Value {
    message::with_number(failed(1), place, n)
}

fn answer(state: State) -> Value {
    let users = pair(1, user(1001), message::NOBODY);
    message::with_state(message::with_users(message::blank(9), users), state)
}

// The same of other users, with a mask.
fn of_users(value: Value, users: Group, mask: u64) -> Value {
    message::with_mask(message::with_users(value, users), true, mask)
}

// With one option more.

fn and_dispatchers(value: Value, dispatchers: Group) -> Value {
    message::with_given(message::with_dispatchers(value, dispatchers), 0)
}

fn and_sources(value: Value, sources: Group) -> Value {
    message::with_given(message::with_sources(value, sources), 1)
}

fn and_destinations(value: Value, destinations: Group) -> Value {
    message::with_given(message::with_destinations(value, destinations), 2)
}

fn and_areas(value: Value, some: Areas) -> Value {
    message::with_given(message::with_areas(value, some), 3)
}

fn pair(range: u8, first: Address, second: Address) -> Group {
    group(range, first, second, message::NOBODY)
}

fn areas(range: u8, first: u8, second: u8, third: u8) -> Areas {
    let mut areas = [0; 15];
    areas[0] = first;
    areas[1] = second;
    areas[2] = third;
    Areas { range, areas }
}
