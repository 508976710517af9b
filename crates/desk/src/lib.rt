// A desk: whole lists of requests to a job, with the caller's tickets and engines.
#![tactic(auto)]

mod carrying;
mod slots;

ghost use Rattle.std.specs.Prelude.{◌≡◌};
ghost use Rattle.desk.specs.Desks.{answered};

use book::{JobFault, Outcome};
pub use carrying::{carry_out, close};
use limit_search::Step;
pub use slots::Slot;

/// What a caller asks. A ticket is named by its slot in the rack, and an engine by its place.
#[derive(Clone, Copy)]
pub enum Request {
    EnterQuantity {
        kind: u8,
        quantity: u32,
    },
    EnterMask {
        kind: u8,
        mask: u8,
        limit: Option<u32>,
    },
    /// The ticket is put into the slot, which must be free.
    TakeOut {
        nozzle: u8,
        slot: usize,
    },
    GiveBack {
        slot: usize,
    },
    Scrap {
        slot: usize,
    },
    /// The new ticket is put into the same slot.
    Exchange {
        slot: usize,
        nozzle: u8,
    },
    Plan {
        engine: usize,
    },
    /// With so many places for the row.
    ShowSubtour {
        subtour: u32,
        places: usize,
    },
    ShowStep {
        step: u32,
    },
}

/// What a request is answered with.
#[derive(Clone, Copy, PartialEq, Eq, Debug)]
pub enum Answer {
    /// The request is no turn: there is no such slot or engine, the slot to spend from is free, or
    /// the slot to fill is taken.
    Skipped,
    Refused(JobFault),
    Done,
    /// A ticket of this job for this nozzle lies in the slot.
    Gave { job: u32, nozzle: u8 },
    Ended(Outcome),
    /// What each nozzle takes, in the first `count` bytes.
    Row { count: u8, bytes: [u8; 8] },
    Step(Step),
}

/// How a turn ended that has no answer of its own.
impl From<Result<(), JobFault>> for Answer {
    ghost from_gives = { λ ended answer. answer ≡ answered ended };

    fn from(ended: Result<(), JobFault>) -> Answer {
        ended.map_or_else(Answer::Refused, |()| Answer::Done)
    }
}
