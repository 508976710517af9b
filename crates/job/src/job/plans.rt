// Planning a job, and how that ended.
ghost use Rattle.std.specs.Prelude.{◌≡◌, ◌+◌, ◌%◌, ◌^◌, Ok, Err};
ghost use Rattle.book.specs.Books.{runs_of};
ghost use Rattle.book.specs.Events.{Kept};
ghost use Rattle.job.specs.Jobs.{book_of, state_of, Boarded, Ended, Sought};

use super::Job;
use book::{JobFault, Outcome};
use limit_search::{Step, search};
use network::Engine;
use sheets::Board;

impl Job {
    // The board of the book, of which nothing is missing.
    pub(super) fn board(&self) -> Result<Board, JobFault>
        ensures { Boarded self.now result }
    {
        Ok(Board::of(self.types.as_slice(), self.nozzles.as_slice())?)
    }

    // Searches the network of the book for the least limit that admits all pieces.
    fn seek<E: Engine>(
        &self,
        engine: &mut E,
        flow: &mut [u32; 256],
        trail: &mut [Step; 9],
    ) -> Result<Outcome, JobFault>
        ensures ends { Sought self.now flow.new trail.new result }
        ensures counts { elim result [ Ok o ↦ E.count engine.new ≡ (E.count engine.old + runs_of o) % 2 ^ 32 | Err f ↦ engine.new ≡ engine.old ] }
    {
        let board = self.board()?;
        let net = board.network();
        let found = search(&net, board.total(), engine, flow, trail)?;
        Ok(Outcome::from(found))
    }

    /// Plans the job with an engine, and keeps the outcome with its flow and its trail.
    pub fn plan<E: Engine>(&mut self, engine: &mut E) -> Result<Outcome, JobFault>
        ensures turn { Ended self.old result self.new }
        ensures counts { elim result [ Ok o ↦ E.count engine.new ≡ (E.count engine.old + runs_of o) % 2 ^ 32 | Err f ↦ engine.new ≡ engine.old ] }
        ensures kept { Kept (state_of self.new) }
    {
        let mut flow = self.flow;
        let mut trail = self.trail;
        let outcome = self.seek(engine, &mut flow, &mut trail)?;
        self.flow = flow;
        self.trail = trail;
        self.outcome = outcome;
        Ok(outcome)
    }
}
