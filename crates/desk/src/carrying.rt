// Carrying requests out, one after another.
ghost use Rattle.std.specs.Prelude.{◌≡◌, ℕ, ◌<◌, min, map, length, take, drop, slice_index_or};
ghost use Rattle.book.specs.Events.{Kept};
ghost use Rattle.book.specs.Turns.{show_subtour, show_step};
ghost use Rattle.job.specs.Jobs.{book_of, state_of};
ghost use Rattle.desk.specs.Desks.{world, free, Showing, Does, Carried, Recorded, Closed, PlanTurn};
ghost use Rattle.desk.specs.Racks.{Sound};

use crate::slots::Slot;
use crate::{Answer, Request};
use book::JobFault;
use job::Job;
use network::Engine;

// Plans with the engine at a place, if there is one.
fn plan_with<E: Engine>(job: &mut Job, engines: &mut [E], place: usize) -> Answer
    ensures { PlanTurn place (state_of job.old) (map E.count engines.old) result (state_of job.new) (map E.count engines.new) }
{
    if place >= engines.len() {
        return Answer::Skipped;
    }
    match job.plan(&mut engines[place]) {
        Ok(outcome) => Answer::Ended(outcome),
        Err(fault) => Answer::Refused(fault),
    }
}

// Shows a subtour in memory of so many places; more than eight are never needed.
fn show_subtour(job: &Job, subtour: u32, places: usize) -> Answer
    ensures { Showing (state_of job.now) (show_subtour subtour places) result }
{
    let mut bytes = [0; 8];
    match job.show_subtour(subtour, &mut bytes[0..places.min(8)]) {
        Ok(()) => Answer::Row {
            count: job.nozzle_count(),
            bytes,
        },
        Err(fault) => Answer::Refused(fault),
    }
}

fn show_step(job: &Job, step: u32) -> Answer
    ensures { Showing (state_of job.now) (show_step step) result }
{
    job.show_step(step)
        .map_or_else(Answer::Refused, Answer::Step)
}

// Carries one request out.
fn carry_one<E: Engine>(
    job: &mut Job,
    request: Request,
    rack: &mut [Slot],
    engines: &mut [E],
) -> Answer
    ensures { Does (world (state_of job.old) rack.old (map E.count engines.old)) request result (world (state_of job.new) rack.new (map E.count engines.new)) }
{
    match request {
        Request::EnterQuantity { kind, quantity } => job.enter_quantity(kind, quantity).into(),
        Request::EnterMask { kind, mask, limit } => job.enter_mask(kind, mask, limit).into(),
        Request::TakeOut { nozzle, slot } if slot < rack.len() => rack[slot].take_out(job, nozzle),
        Request::GiveBack { slot } if slot < rack.len() => rack[slot].give_back(job),
        Request::Scrap { slot } if slot < rack.len() => rack[slot].scrap(job),
        Request::Exchange { slot, nozzle } if slot < rack.len() => rack[slot].exchange(job, nozzle),
        Request::Plan { engine } => plan_with(job, engines, engine),
        Request::ShowSubtour { subtour, places } => show_subtour(job, subtour, places),
        Request::ShowStep { step } => show_step(job, step),
        _ => Answer::Skipped,
    }
}

/// Carries requests out, one after another, as far as there is room for answers, and says how many.
pub fn carry_out<E: Engine>(
    job: &mut Job,
    requests: &[Request],
    rack: &mut [Slot],
    engines: &mut [E],
    answers: &mut [Answer],
) -> usize
    ensures count { result ≡ min (length requests.now) (length answers.old) }
    ensures carried { Carried (world (state_of job.old) rack.old (map E.count engines.old)) (take result requests.now) (take result answers.new) (world (state_of job.new) rack.new (map E.count engines.new)) }
    ensures run { Recorded (state_of job.old) (take result answers.new) (state_of job.new) }
    ensures kept { Kept (state_of job.new) }
    ensures sound { Sound (book_of job.old) rack.old → Sound (book_of job.new) rack.new }
    ensures rest { drop result answers.new ≡ drop result answers.old }
{
    let n = requests.len().min(answers.len());
    for (i, request) in requests[..n].iter().enumerate() {
        answers[i] = carry_one(job, *request, rack, engines);
    }
    n
}

/// Gives the tickets of a rack back, one after another. A sound rack is then free.
pub fn close(job: &mut Job, rack: &mut [Slot])
    ensures closed { Closed (state_of job.old) rack.old (length rack.old) (state_of job.new) rack.new }
    ensures free { Sound (book_of job.old) rack.old → (j : ℕ) → j < length rack.new → slice_index_or rack.new j free ≡ free }
{
    for slot in rack.iter_mut() {
        let _ = slot.give_back(job);
    }
}
