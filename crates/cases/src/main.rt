// Document 01's worked cases 10 and 12: run, and said in words. What must come out was worked out by hand from the paper. proofs/Worked
// has the others, those that it marks (P), as one checked list.
#![tactic(auto)]

use desk::{Answer, Desk, Event, Stepped};
use records::{Identity, Record};
use std::fmt;
use std::fmt::Write;

fn main() {
    range(b"\x24\x5E\x80\x00\x00\xA0\x00\x08\x00");
    range(b"\x24\x5E\x80\x00\x00\xA0\x00\x08\x20");
    range(b"\x24\x5E\x80\x01\xF4\xA0\x00\x7D\x20");
    full_post();
}

// ---- 10: an ACTIVATE of a range, from SSI 1 to 64, from 1 to 65, and from 1,001 to 1,001

fn range(bytes: &[u8]) {
    let mut out = Out;
    let _ = write!(out, "10 ");
    let profile = profile::sample_profile();
    let _ = match reading::read(profile, bytes, 68) {
        Ok(value) => writeln!(
            out,
            "{} identities",
            message::span_of(profile.air, value.users)
        ),
        Err(stop) => writeln!(out, "refused {}", stop.number),
    };
}

// ---- 12: post 1 holds 8, post 0 none, and then each is called once more

#[tactic(auto, using(profile::proofs::ProfileLaws::sample_passes), unfolding(desk::specs::Desks::open_of))]
fn full_post() {
    let mut desk = Desk::open(profile::sample_profile()).unwrap();
    for i in 0..8 {
        desk = waiting(desk, i);
    }
    say_call(desk, 1004);
    say_call(desk, 1001);
}

// One more call waits at post 1.
fn waiting(desk: Desk, identifier: u32) -> Desk {
    call(desk, 1004, identifier).desk
}

fn say_call(desk: Desk, caller: u32) {
    let answer = call(desk, caller, 8).answer;
    let mut out = Out;
    let _ = write!(out, "12 ");
    let _ = match answer {
        Answer::Refused(stop) => writeln!(out, "refused {}", stop.number),
        Answer::Admitted { post, place } => {
            writeln!(out, "admitted for post {post} at place {place}")
        }
        _ => writeln!(out, "answered otherwise"),
    };
}

// A call from a restricted user, 1,001 of post 0 or 1,004 of post 1.
fn call(desk: Desk, caller: u32, identifier: u32) -> Stepped {
    let mut out = [0u8; 300];
    desk::step(
        desk,
        users(),
        2,
        b"",
        &mut out,
        Event::SetUp {
            caller: Identity {
                ssi: caller,
                extension: 0,
            },
            called: Identity {
                ssi: 2000,
                extension: 0,
            },
            identifier,
            cause: 0,
        },
    )
}

fn users() -> [Record; 128] {
    let mut rows = [Record {
        in_use: false,
        ssi: 0,
        extension: 0,
        post: 0,
        active: false,
    }; 128];
    rows[0] = user(1001, 0);
    rows[1] = user(1004, 1);
    rows
}

fn user(ssi: u32, post: u8) -> Record {
    Record {
        in_use: true,
        ssi,
        extension: 0,
        post,
        active: true,
    }
}

// ---- words

// Standard output, a write for each part of a line. By `println!` one more function would be trusted, which reads errno, and a line would
// end at a write that fails; here it goes on.
#[derive(Drop)]
struct Out;

impl Write for Out {
    fn write_str(&mut self, s: &str) -> fmt::Result {
        io::write_all(1, s.as_bytes());
        Ok(())
    }
}
