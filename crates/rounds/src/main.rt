// The worked values of docs/ROUNDS.md under the sample profile: each is written, what was written is read, and what was read is written
// again. Two lines for each row, `K NAME BITS HEX` and `K again BITS HEX`, or `K refused N HEX`; HEX is the whole area, whose bytes were
// AA, and 55 the second time. proofs/Cases of `writing` has rows 1 to 18 through the definitions.
#![tactic(auto)]

use message::{Address, Group, Value};

mod deactivations;
mod interrogations;
mod show;

fn main() {
    activates();
    acks();
    calls();
    sizes();
    acks_not_valid();
    activates_not_valid();
    others_not_valid();
    requests();
    endings();
    request_sizes();
    requests_not_valid();
    options_not_valid();
    endings_not_valid();
    deactivations::rows();
    interrogations::rows();
}

// ---- the rows

fn activates() {
    show::row(1, case_8(), 12);
    show::row(2, two_and_one(), 48);
    show::row(3, one_and_none(), 48);
    show::row(4, three_and_range(), 48);
}

fn acks() {
    show::row(5, ack(3, four(), true, 0xC000_0000_0000_0000, 1, 0), 48);
    show::row(6, ack(3, four(), true, 0x2000_0000_0000_0000, 0, 1), 48);
    show::row(7, ack(3, four(), false, 0, 1, 0), 48);
    show::row(8, ack(3, twice_and_one(), false, 0, 0, 127), 48);
    show::row(
        9,
        ack(3, sixty_four(), true, 0xAAAA_AAAA_AAAA_AAAA, 0, 2),
        48,
    );
}

fn calls() {
    show::row(10, interrogate(user(1001)), 48);
    show::row(11, interrogate(stranger(1001, 77)), 48);
    show::row(12, notice(10, 0, false, message::NOBODY), 48);
    show::row(13, notice(10, 2, true, user(1)), 48);
    show::row(14, call(12, 5), 48);
    show::row(15, call(13, 0), 48);
    show::row(16, call(15, 16383), 48);
    show::row(17, notice(16, 0, false, message::NOBODY), 48);
    show::row(18, notice(16, 31, true, stranger(16777215, 1)), 48);
}

fn sizes() {
    show::row(19, case_8(), 9);
    show::row(20, case_8(), 8);
    show::row(21, call(13, 0), 2);
    show::row(22, call(13, 0), 1);
    show::row(23, call(13, 0), 0);
}

fn acks_not_valid() {
    show::row(24, ack(3, four(), true, 0xC800_0000_0000_0000, 1, 0), 12);
    show::row(25, ack(3, four(), false, 0x8000_0000_0000_0000, 1, 0), 12);
    show::row(26, interrogate(address(1, 1001, 77)), 12);
    show::row(27, one_too_many(), 12);
    show::row(28, ack(3, four(), false, 0, 1, 1), 12);
}

fn activates_not_valid() {
    show::row(
        29,
        activate(
            four(),
            false,
            group(1, user(9), message::NOBODY, message::NOBODY),
        ),
        12,
    );
    show::row(30, call(12, 16384), 12);
    show::row(31, notice(10, 32, false, message::NOBODY), 12);
    show::row(32, alone(4, message::NOBODY, message::NOBODY), 12);
    show::row(33, alone(0, message::NOBODY, message::NOBODY), 12);
}

fn others_not_valid() {
    show::row(34, alone(15, user(1004), user(1001)), 12);
    show::row(35, alone(15, user(1), user(65)), 12);
    show::row(36, call(5, 0), 12);
    show::row(37, numbered(interrogate(user(1001)), 1), 12);
}

fn requests() {
    show::row(38, request(5, 0), 48);
    show::row(39, request(5, 2), 48);
    show::row(40, all_given(detailed()), 48);
    show::row(41, service_of_called(), 48);
    show::row(42, all_given(largest()), 48);
    show::row(43, called_alone(16, user(7)), 48);
    show::row(44, marked(request(16383, 31), NO_PARTY), 48);
}

fn endings() {
    show::row(45, call(14, 5), 48);
    show::row(46, call(14, 16383), 48);
    show::row(47, call_and_cause(17, 5, 2), 48);
    show::row(48, notice(18, 2, false, message::NOBODY), 48);
    show::row(49, notice(18, 2, true, user(1001)), 48);
}

fn request_sizes() {
    show::row(50, all_given(detailed()), 19);
    show::row(51, all_given(detailed()), 18);
}

fn requests_not_valid() {
    show::row(52, marked(detailed(), NO_CALLING), 12);
    show::row(53, marked(detailed(), NO_CALLED), 12);
    show::row(54, detailed_but(message::MNI_AT, 16777216), 12);
    show::row(55, detailed_but(message::CALLED_AREA_AT, 16), 12);
    show::row(56, detailed_but(message::CALLING_SERVICE_AT, 4), 12);
}

fn options_not_valid() {
    show::row(
        57,
        message::with_number(service_of_called(), message::CALLING_SERVICE_AT, 3),
        12,
    );
    show::row(58, numbered(all_given(detailed()), 2), 12);
    show::row(59, called_alone(0, address(3, 1004, 0)), 12);
    show::row(60, request(16384, 0), 12);
}

fn endings_not_valid() {
    show::row(61, call_and_cause(17, 5, 32), 12);
    show::row(62, call_and_cause(14, 5, 2), 12);
    show::row(63, call_and_cause(18, 5, 2), 12);
    show::row(64, message::with_given(call(12, 5), 2), 12);
}

// ---- their values

// REQUEST's options but the calling address, but the called, but both.
const NO_CALLING: [bool; 7] = [false, true, true, true, true, true, true];

const NO_CALLED: [bool; 7] = [true, false, true, true, true, true, true];

const NO_PARTY: [bool; 7] = [false, false, true, true, true, true, true];

fn case_8() -> Value {
    alone(15, user(1001), user(1004))
}

fn two_and_one() -> Value {
    activate(
        group(2, user(1001), stranger(7, 5), message::NOBODY),
        true,
        group(1, user(9), message::NOBODY, message::NOBODY),
    )
}

fn one_and_none() -> Value {
    activate(
        group(1, user(1), message::NOBODY, message::NOBODY),
        true,
        message::no_group(),
    )
}

fn three_and_range() -> Value {
    activate(
        group(3, stranger(16777215, 16777215), user(0), stranger(1, 0)),
        true,
        group(15, stranger(100, 3), stranger(163, 3), message::NOBODY),
    )
}

fn one_too_many() -> Value {
    activate(
        group(1, user(1), user(2), message::NOBODY),
        true,
        message::no_group(),
    )
}

// With a range number of users, which INTERROGATE and REQUEST do not carry.
fn numbered(value: Value, range: u8) -> Value {
    let mut v = value;
    v.users.range = range;
    v
}

// REQUEST 5, cause 2, with something of each option, none marked as there.
fn detailed() -> Value {
    with_details(
        with_parties(request(5, 2), user(1001), stranger(1004, 5)),
        5,
        [1, 2],
        [1, 2],
    )
}

fn detailed_but(place: u8, n: u32) -> Value {
    all_given(message::with_number(detailed(), place, n))
}

fn largest() -> Value {
    let user = stranger(16777215, 16777215);
    with_details(
        with_parties(request(16383, 31), user, user),
        16777215,
        [15, 15],
        [3, 3],
    )
}

fn service_of_called() -> Value {
    let value = message::with_number(request(5, 0), message::CALLED_SERVICE_AT, 3);
    message::with_given(value, 6)
}

fn called_alone(cause: u32, called: Address) -> Value {
    message::with_given(message::with_user(request(5, cause), 1, called), 1)
}

fn four() -> Group {
    group(15, user(1001), user(1004), message::NOBODY)
}

fn twice_and_one() -> Group {
    group(3, user(1), user(1), stranger(2, 4))
}

fn sixty_four() -> Group {
    group(15, stranger(64, 9), stranger(127, 9), message::NOBODY)
}

fn alone(range: u8, first: Address, last: Address) -> Value {
    activate(
        group(range, first, last, message::NOBODY),
        false,
        message::no_group(),
    )
}

fn activate(users: Group, option: bool, dispatchers: Group) -> Value {
    let value = message::with_users(message::blank(2), users);
    given(message::with_dispatchers(value, dispatchers), option)
}

// ACTIVATE ACK or DEACTIVATE ACK.
fn ack(pdu: u8, users: Group, masked: bool, mask: u64, res: u8, reason: u8) -> Value {
    let value = message::with_users(message::blank(pdu), users);
    message::with_result(
        message::with_mask(value, masked, mask),
        res as u32,
        reason as u32,
    )
}

fn interrogate(whom: Address) -> Value {
    message::with_user(message::blank(8), 0, whom)
}

// INTERCEPTED, DIVERTED or REJECTED.
fn notice(pdu: u8, cause: u8, option: bool, dispatcher: Address) -> Value {
    let value = message::with_number(message::blank(pdu), message::CAUSE_AT, cause as u32);
    given(message::with_dispatcher(value, dispatcher), option)
}

// ACCEPT, DIVERT, CANCEL or ACCEPTED.
fn call(pdu: u8, identifier: u32) -> Value {
    message::with_number(message::blank(pdu), message::IDENTIFIER_AT, identifier)
}

// REJECT, or REQUEST without its options.
fn call_and_cause(pdu: u8, identifier: u32, cause: u32) -> Value {
    message::with_number(call(pdu, identifier), message::CAUSE_AT, cause)
}

fn request(identifier: u32, cause: u32) -> Value {
    call_and_cause(11, identifier, cause)
}

fn with_parties(value: Value, calling: Address, called: Address) -> Value {
    message::with_user(message::with_user(value, 0, calling), 1, called)
}

// The network, and the areas and services of the calling and of the called.
fn with_details(value: Value, mni: u32, areas: [u32; 2], services: [u32; 2]) -> Value {
    let known = message::with_number(value, message::MNI_AT, mni);
    with_pair(
        with_pair(
            known,
            message::CALLING_AREA_AT,
            message::CALLED_AREA_AT,
            areas,
        ),
        message::CALLING_SERVICE_AT,
        message::CALLED_SERVICE_AT,
        services,
    )
}

fn with_pair(value: Value, calling: u8, called: u8, pair: [u32; 2]) -> Value {
    message::with_number(
        message::with_number(value, calling, pair[0]),
        called,
        pair[1],
    )
}

fn all_given(value: Value) -> Value {
    marked(value, [true; 7])
}

// With just these options marked as there.
fn marked(value: Value, options: [bool; 7]) -> Value {
    Value {
        given: options,
        ..value
    }
}

// With its option, or without.
fn given(value: Value, option: bool) -> Value {
    if option {
        return message::with_given(value, 0);
    }
    value
}

fn group(range: u8, first: Address, second: Address, third: Address) -> Group {
    let mut addresses = [message::NOBODY; 15];
    addresses[0] = first;
    addresses[1] = second;
    addresses[2] = third;
    Group { range, addresses }
}

fn user(ssi: u32) -> Address {
    address(1, ssi, 0)
}

fn stranger(ssi: u32, extension: u32) -> Address {
    address(2, ssi, extension)
}

fn address(kind: u8, ssi: u32, extension: u32) -> Address {
    Address {
        kind,
        ssi,
        extension,
    }
}
