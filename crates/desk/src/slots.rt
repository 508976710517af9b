// The slots of a rack, each of which holds a ticket or none, and the turns that change one.
ghost use Rattle.std.specs.Prelude.{◌≡◌, None, MatchResult};
ghost use Rattle.book.specs.Turns.{take_out, give_back, scrap, exchange};
ghost use Rattle.job.specs.Jobs.{state_of};

use crate::Answer;
use job::{Job, Returned, Ticket};

/// A place for a ticket, new without one. It may be let go only where it is free.
#[derive(Default)]
pub struct Slot {
    pub ticket: Option<Ticket>,
}

impl Drop for Slot {
    fn drop(self)
        requires { self.ticket ≡ None }
    {
        let Slot { ticket } = self;
        if let Some(_ticket) = ticket {
            unreachable()
        }
    }
}

impl Slot {
    ghost use Rattle.desk.specs.Desks.{free, holding, fill, spend, SlotTurn};

    // Puts a ticket in, and says which.
    fn put(&mut self, ticket: Ticket) -> Answer
        requires { self.old ≡ free }
        ensures answer { result ≡ Answer.Gave ticket.job ticket.nozzle }
        ensures held { self.new ≡ holding ticket }
    {
        let answer = Answer::Gave {
            job: ticket.job(),
            nozzle: ticket.nozzle(),
        };
        *self = Slot {
            ticket: Some(ticket),
        };
        answer
    }

    // Puts a ticket that was handed back in again.
    fn restore(&mut self, returned: Returned) -> Answer
        requires { self.old ≡ free }
        ensures answer { result ≡ Answer.Refused returned.fault }
        ensures held { self.new ≡ holding returned.ticket }
    {
        let Returned { fault, ticket } = returned;
        *self = Slot {
            ticket: Some(ticket),
        };
        Answer::Refused(fault)
    }

    // How a turn ended that was to use up the ticket taken from here.
    fn settle(&mut self, spent: Result<(), Returned>) -> Answer
        requires { self.old ≡ free }
        ensures { MatchResult spent (λ _. (result ≡ Answer.Done) × (self.new ≡ free))
            (λ back. (result ≡ Answer.Refused back.fault) × (self.new ≡ holding back.ticket)) }
    {
        match spent {
            Ok(()) => Answer::Done,
            Err(returned) => self.restore(returned),
        }
    }

    pub(crate) fn take_out(&mut self, job: &mut Job, nozzle: u8) -> Answer
        ensures { SlotTurn (fill self.old (take_out nozzle)) (state_of job.old) self.old result (state_of job.new) self.new }
    {
        if self.ticket.is_some() {
            return Answer::Skipped;
        }
        match job.take_out(nozzle) {
            Ok(ticket) => self.put(ticket),
            Err(fault) => Answer::Refused(fault),
        }
    }

    pub(crate) fn give_back(&mut self, job: &mut Job) -> Answer
        ensures { SlotTurn (spend self.old give_back) (state_of job.old) self.old result (state_of job.new) self.new }
    {
        let Some(ticket) = self.ticket.take() else {
            return Answer::Skipped;
        };
        self.settle(job.give_back(ticket))
    }

    pub(crate) fn scrap(&mut self, job: &mut Job) -> Answer
        ensures { SlotTurn (spend self.old scrap) (state_of job.old) self.old result (state_of job.new) self.new }
    {
        let Some(ticket) = self.ticket.take() else {
            return Answer::Skipped;
        };
        self.settle(job.scrap(ticket))
    }

    pub(crate) fn exchange(&mut self, job: &mut Job, nozzle: u8) -> Answer
        ensures { SlotTurn (spend self.old (λ number own. exchange number own nozzle)) (state_of job.old) self.old result (state_of job.new) self.new }
    {
        let Some(ticket) = self.ticket.take() else {
            return Answer::Skipped;
        };
        match job.exchange(ticket, nozzle) {
            Ok(new) => self.put(new),
            Err(returned) => self.restore(returned),
        }
    }
}
