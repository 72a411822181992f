// Rows 65 to 108: DEACTIVATE and DEACTIVATE ACK, of the users of rows 1 to 9.
use crate::{ack, address, four, group, show, sixty_four, stranger, twice_and_one, user};
use message::{Address, Group, Value};

pub(crate) fn rows() {
    requests();
    acks();
    sizes();
    options_not_valid();
    others_not_valid();
    users_not_valid();
    addresses_not_valid();
    acks_not_valid();
}

// ---- the rows

fn requests() {
    show::row(65, case_8(), 48);
    show::row(66, deactivate(one(user(1001))), 48);
    show::row(67, deactivate(two_kinds()), 48);
    show::row(
        68,
        deactivate(group(3, stranger(16777215, 16777215), user(0), stranger(1, 0))),
        48,
    );
    show::row(69, deactivate(sixty_four()), 48);
    show::row(70, deactivate(range(user(7), user(7))), 48);
}

fn acks() {
    show::row(71, ack(5, four(), true, 0xC000_0000_0000_0000, 1, 0), 48);
    show::row(72, ack(5, four(), true, 0x2000_0000_0000_0000, 0, 1), 48);
    show::row(73, ack(5, four(), true, 0x1000_0000_0000_0000, 0, 2), 48);
    show::row(74, ack(5, four(), false, 0, 1, 0), 48);
    show::row(75, ack(5, twice_and_one(), false, 0, 0, 127), 48);
    show::row(
        76,
        ack(5, sixty_four(), true, 0xAAAA_AAAA_AAAA_AAAA, 0, 2),
        48,
    );
    show::row(77, ack(5, two_kinds(), true, 0, 0, 0), 48);
    show::row(
        78,
        ack(
            5,
            one(stranger(16777215, 0)),
            true,
            0x8000_0000_0000_0000,
            1,
            0,
        ),
        48,
    );
}

fn sizes() {
    show::row(79, case_8(), 9);
    show::row(80, case_8(), 8);
    show::row(81, ack(5, four(), true, 0xC000_0000_0000_0000, 1, 0), 10);
    show::row(82, ack(5, four(), true, 0xC000_0000_0000_0000, 1, 0), 9);
}

fn options_not_valid() {
    show::row(83, message::with_given(dispatched(case_8()), 0), 12);
    show::row(84, message::with_given(case_8(), 0), 12);
    show::row(85, dispatched(case_8()), 12);
    show::row(
        86,
        message::with_mask(case_8(), true, 0xC000_0000_0000_0000),
        12,
    );
    show::row(87, message::with_mask(case_8(), true, 0), 12);
}

fn others_not_valid() {
    show::row(88, message::with_result(case_8(), 1, 0), 12);
    show::row(89, message::with_result(case_8(), 0, 1), 12);
    show::row(90, message::with_number(case_8(), message::CAUSE_AT, 2), 12);
    show::row(
        91,
        message::with_number(case_8(), message::IDENTIFIER_AT, 5),
        12,
    );
    show::row(92, message::with_given(case_8(), 1), 12);
}

fn users_not_valid() {
    show::row(
        93,
        deactivate(group(1, user(1001), user(2), message::NOBODY)),
        12,
    );
    show::row(94, deactivate(nobody(4)), 12);
    show::row(95, deactivate(nobody(0)), 12);
}

fn addresses_not_valid() {
    show::row(96, deactivate(range(user(1004), user(1001))), 12);
    show::row(97, deactivate(range(user(1), user(65))), 12);
    show::row(98, deactivate(range(stranger(7, 5), stranger(8, 6))), 12);
    show::row(99, deactivate(range(user(7), stranger(8, 0))), 12);
    show::row(100, deactivate(one(address(3, 1001, 0))), 12);
    show::row(101, deactivate(one(address(1, 1001, 77))), 12);
}

fn acks_not_valid() {
    show::row(102, message::with_users(message::blank(6), four()), 12);
    show::row(103, ack(5, four(), true, 0xC800_0000_0000_0000, 1, 0), 12);
    show::row(104, ack(5, four(), false, 0x8000_0000_0000_0000, 1, 0), 12);
    show::row(105, ack(5, four(), false, 0, 1, 1), 12);
    show::row(106, ack(5, four(), true, 0x2000_0000_0000_0000, 0, 128), 12);
    show::row(107, ack(5, four(), true, 0xC000_0000_0000_0000, 2, 0), 12);
    show::row(
        108,
        message::with_given(dispatched(ack(5, four(), false, 0, 1, 0)), 0),
        12,
    );
}

// ---- their values

fn case_8() -> Value {
    deactivate(four())
}

fn deactivate(users: Group) -> Value {
    message::with_users(message::blank(4), users)
}

// With dispatcher 9, whom none of these messages carries.
fn dispatched(value: Value) -> Value {
    message::with_dispatchers(value, one(user(9)))
}

fn two_kinds() -> Group {
    group(2, user(1001), stranger(7, 5), message::NOBODY)
}

fn one(whom: Address) -> Group {
    group(1, whom, message::NOBODY, message::NOBODY)
}

fn range(first: Address, last: Address) -> Group {
    group(15, first, last, message::NOBODY)
}

fn nobody(range: u8) -> Group {
    group(range, message::NOBODY, message::NOBODY, message::NOBODY)
}
