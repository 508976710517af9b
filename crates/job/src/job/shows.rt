// What is shown of a plan: its subtours, and the trail of the search.
ghost use Rattle.std.specs.Prelude.{◌≡◌, ◌≤◌, length, Ok, Err};
ghost use Rattle.book.specs.Books.{runs_of};
ghost use Rattle.book.specs.Events.{Kept};
ghost use Rattle.job.specs.Jobs.{book_of, state_of, RowShown, StepShown};

use super::Job;
use book::{JobFault, Outcome};
use limit_search::Step;

impl Job {
    /// How many nozzles the job has, in service or not.
    pub fn nozzle_count(&self) -> u8
        ensures { (result ≡ length (book_of self.now).nozzles) × (result ≤ 8) }
    {
        self.nozzles.len() as u8
    }

    /// How the last planning ended, if nothing was changed since.
    pub fn outcome(&self) -> Outcome
        ensures same { result ≡ (book_of self.now).outcome }
        ensures kept { Kept (state_of self.now) }
    {
        self.outcome
    }

    /// Writes what each nozzle takes in a subtour of the plan in force: a byte for each nozzle, the
    /// type or 0. Later bytes stay as they were.
    pub fn show_subtour(&self, subtour: u32, out: &mut [u8]) -> Result<(), JobFault>
        ensures shown { RowShown self.now subtour out.old result out.new }
        ensures kept { Kept (state_of self.now) }
    {
        let Outcome::Planned { cost, .. } = self.outcome else {
            return Err(JobFault::NoPlan);
        };
        if !(1..=cost).contains(&subtour) {
            return Err(JobFault::NoSuchPart { number: subtour });
        }
        let needed = self.nozzles.len();
        if out.len() < needed {
            return Err(JobFault::NoRoom { needed });
        }
        let board = self.board()?;
        board.row(&self.flow, subtour - 1, out);
        Ok(())
    }

    /// A step of the trail of the last planning.
    pub fn show_step(&self, step: u32) -> Result<Step, JobFault>
        ensures shown { StepShown self.now step result }
        ensures kept { Kept (state_of self.now) }
    {
        let runs = self.outcome.runs();
        if runs == 0 {
            return Err(JobFault::NoPlan);
        }
        if !(1..=runs).contains(&(step as usize)) {
            return Err(JobFault::NoSuchPart { number: step });
        }
        Ok(self.trail[step as usize - 1])
    }
}
