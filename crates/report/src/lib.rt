// The lines of a planner's answers, in memory that the caller lends. Each call answers how many of
// the first bytes it wrote; a line for which there are too few is not begun.
#![tactic(auto)]

ghost use Rattle.std.specs.Prelude.{◌≡◌, ◌≤◌, ◌++◌, length, take};
ghost use Rattle.report.specs.Lines.{numbers_text, outcome_text, outcome_refusal, refusal_text, subtour_text, subtour_refusal, Written, Reported};

mod line;

use book::{JobFault, Outcome};
use job::Job;
pub use line::LONGEST_LINE;
use line::{copy_to, line_of};
use refusals::Refusal;

/// How many nozzles a job may have.
const MOST_NOZZLES: usize = records::MOST_NOZZLES as usize;

/// Writes a line: a word, and numbers a space apart.
fn put_line(word: &[u8], numbers: &[usize], out: &mut [u8]) -> Result<usize, JobFault>
    requires { (length word.now ≤ 8) × (length numbers.now ≤ 8) }
    ensures { Written (word.now ++ numbers_text numbers.now) out.old result out.new }
{
    copy_to(line_of(word, numbers).as_slice(), out)
}

/// Writes how a planning ended: `planned`, the cost and the runs, or `short` and the runs.
pub fn outcome_line(outcome: Outcome, out: &mut [u8]) -> Result<usize, JobFault>
    ensures { Reported (outcome_refusal outcome) (outcome_text outcome) out.old result out.new }
{
    match outcome {
        Outcome::None => Err(JobFault::NoPlan),
        Outcome::Planned { cost, runs } => put_line(b"planned ", &[cost as usize, runs], out),
        Outcome::Short { runs, .. } => put_line(b"short ", &[runs], out),
    }
}

/// Writes a refusal: `refused`, and its number, its layer and its place.
pub fn refusal_line(fault: JobFault, out: &mut [u8]) -> Result<usize, JobFault>
    ensures { Written (refusal_text fault) out.old result out.new }
{
    let number = usize::from(fault.number());
    let layer = usize::from(fault.layer());
    put_line(b"refused ", &[number, layer, fault.place()], out)
}

/// The bytes of a row as numbers.
fn numbers_of(row: [u8; MOST_NOZZLES]) -> [usize; MOST_NOZZLES]
    ensures { result ≡ row }
{
    row.map(usize::from)
}

/// Writes what each nozzle takes in a subtour of the plan in force: a number for each nozzle, the
/// type or 0.
pub fn subtour_line(job: &Job, subtour: u32, out: &mut [u8]) -> Result<usize, JobFault>
    ensures { Reported (subtour_refusal job.now subtour) (subtour_text job.now subtour) out.old result out.new }
{
    let count = usize::from(job.nozzle_count());
    let mut row = [0; MOST_NOZZLES];
    job.show_subtour(subtour, &mut row[0..count])?;
    let numbers = numbers_of(row);
    put_line(b"", &numbers[0..count], out)
}
