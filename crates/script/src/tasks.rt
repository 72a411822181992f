// The lines that are a keyword and numbers: how many there are, and the largest that each may be.
ghost use Rattle.std.specs.Prelude.{◌≡◌, eqb};
ghost use Rattle.script.specs.Lines.{when, record_task, set_up_task, reject_task, cancel_task, out_task, place_task, unplace_task, second_task, cause_task};

use crate::Task;
use crate::shape::Numbers;
use desk::Event;
use places::Place;
use records::{Identity, Record};

#[tactic(auto, unfolding(crate::specs::Lines::record_task))]
pub(crate) fn lend(n: Numbers) -> Task
    ensures { result ≡ record_task n }
{
    let number = n.number;
    if n.count != 6 || number[0] > 255 || number[1] > 1 || number[4] > 255 || number[5] > 1 {
        return Task::Unknown;
    }
    Task::Lend {
        at: number[0] as u8,
        record: Record {
            in_use: number[1] == 1,
            ssi: number[2],
            extension: number[3],
            post: number[4] as u8,
            active: number[5] == 1,
        },
    }
}

#[tactic(auto, unfolding(crate::specs::Lines::set_up_task))]
pub(crate) fn set_up(n: Numbers) -> Task
    ensures { result ≡ set_up_task n }
{
    let number = n.number;
    if n.count < 5 || n.count > 6 {
        return Task::Unknown;
    }
    Task::Call(Event::SetUp {
        caller: Identity {
            ssi: number[0],
            extension: number[1],
        },
        called: Identity {
            ssi: number[2],
            extension: number[3],
        },
        identifier: number[4],
        cause: number[5],
    })
}

#[tactic(auto, unfolding(crate::specs::Lines::reject_task))]
pub(crate) fn reject(n: Numbers) -> Task
    ensures { result ≡ reject_task n }
{
    if n.count != 2 {
        return Task::Unknown;
    }
    Task::Call(Event::Reject {
        post: n.number[0] as u64,
        identifier: n.number[1],
    })
}

#[tactic(auto, unfolding(crate::specs::Lines::cancel_task))]
pub(crate) fn cancel(n: Numbers) -> Task
    ensures { result ≡ cancel_task n }
{
    if n.count != 1 {
        return Task::Unknown;
    }
    Task::Call(Event::Cancel {
        identifier: n.number[0],
    })
}

#[tactic(auto, unfolding(crate::specs::Lines::out_task))]
pub(crate) fn room(n: Numbers) -> Task
    ensures { result ≡ out_task n }
{
    let number = n.number;
    if n.count != 1 || number[0] > 300 {
        return Task::Unknown;
    }
    Task::Room {
        bytes: number[0] as u16,
    }
}

#[tactic(auto, unfolding(crate::specs::Lines::place_task))]
pub(crate) fn fill(n: Numbers) -> Task
    ensures { result ≡ place_task n }
{
    let number = n.number;
    if n.count != 3 || number[0] > 31 || number[1] > 65535 || number[2] > 255 {
        return Task::Unknown;
    }
    Task::Fill {
        at: number[0] as u8,
        place: Place {
            used: true,
            identifier: number[1] as u16,
            post: number[2] as u8,
            more: false,
            second: 0,
            cause: 0,
        },
    }
}

#[tactic(auto, unfolding(crate::specs::Lines::second_task))]
pub(crate) fn second(n: Numbers) -> Task
    ensures { result ≡ second_task n }
{
    let number = n.number;
    if n.count != 2 || number[0] > 31 || number[1] > 255 {
        return Task::Unknown;
    }
    Task::Second {
        at: number[0] as u8,
        post: number[1] as u8,
    }
}

#[tactic(auto, unfolding(crate::specs::Lines::cause_task))]
pub(crate) fn cause(n: Numbers) -> Task
    ensures { result ≡ cause_task n }
{
    let number = n.number;
    if n.count != 2 || number[0] > 31 || number[1] > 255 {
        return Task::Unknown;
    }
    Task::Cause {
        at: number[0] as u8,
        cause: number[1] as u8,
    }
}

#[tactic(auto, unfolding(crate::specs::Lines::unplace_task))]
pub(crate) fn empty(n: Numbers) -> Task
    ensures { result ≡ unplace_task n }
{
    let number = n.number;
    if n.count != 1 || number[0] > 31 {
        return Task::Unknown;
    }
    Task::Fill {
        at: number[0] as u8,
        place: places::FREE,
    }
}

// The keyword is the whole line.
pub(crate) fn dump(len: usize) -> Task
    ensures { result ≡ when (eqb len 4) Task.Dump }
{
    if len == 4 { Task::Dump } else { Task::Unknown }
}
