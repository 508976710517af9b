// A job with its tables, and the tickets for nozzles that were taken out of it.
ghost use Rattle.std.specs.Prelude.{◌≡◌, ℕ, ◌≤◌, length, take};
ghost use Rattle.network.specs.declared.sides.Cut.{Cut};
ghost use Rattle.sheets.specs.Boards.{sheet_of};
ghost use Rattle.book.specs.declared.Outcome.TheVariants.{Planned, Short};
ghost use Rattle.book.specs.Books.{orders_in};
ghost use Rattle.book.specs.Keeps.{PlannedKept, ShortKept};

use arrayvec::ArrayVec;
use book::{JobFault, Outcome};
use limit_search::Step;
use records::TypeRecord;
use sheets::NozzleState;

mod plans;
mod shows;
mod tickets;
mod turns;

/// The right to a nozzle that was taken out of a job. It cannot be copied, made or let fall: it is
/// given back, scrapped or exchanged.
pub struct Ticket {
    job: u32,
    nozzle: u8,
}

/// A ticket handed back, and why.
pub struct Returned {
    pub fault: JobFault,
    pub ticket: Ticket,
}

/// A job of 1 to 24 types and 1 to 8 nozzles. The flow and the trail are those of the outcome, and
/// the last two facts are what it promises.
#[derive(Drop)]
pub struct Job {
    number: u32,
    types: ArrayVec<TypeRecord, 24>,
    nozzles: ArrayVec<NozzleState, 8>,
    outcome: Outcome,
    flow: [u32; 256],
    trail: [Step; 9],
    ghost some_types: { 1 ≤ length types.items },
    ghost few_types: { length types.items ≤ 24 },
    ghost some_nozzles: { 1 ≤ length nozzles.items },
    ghost few_nozzles: { length nozzles.items ≤ 8 },
    ghost planned: { (cost runs : ℕ) → outcome ≡ Planned cost runs → ∥ PlannedKept types.items nozzles.items (sheet_of (orders_in types.items) nozzles.items flow cost) (take runs trail) cost runs ∥₁ },
    ghost short: { (runs : ℕ) (cut : Cut) → outcome ≡ Short runs cut → ∥ ShortKept types.items nozzles.items (take runs trail) runs cut ∥₁ },
}
