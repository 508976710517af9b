// A job's book: what was entered of each type, the states of the nozzles, and how the last planning
// ended. The crate's specs/ say which turns a book refuses, what an accepted one makes of it, and
// what an outcome promises; its proofs/ hold the laws behind that.
#![tactic(auto)]

use network::Cut;

mod faults;
mod outcomes;

pub use faults::JobFault;
pub use refusals::Refusal;

/// How the last planning ended, if nothing was changed since.
#[derive(Clone, Copy, PartialEq, Eq, Debug)]
pub enum Outcome {
    None,
    /// A plan in force: the fewest subtours, after so many runs.
    Planned { cost: u32, runs: usize },
    /// No sheet exists: the cut that shows it, after so many runs.
    Short { runs: usize, cut: Cut },
}
