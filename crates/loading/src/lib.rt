// A job loaded from a job file.
#![tactic(auto)]

ghost use Rattle.std.specs.Prelude.{◌≡◌, true, length, Ok};
ghost use Rattle.jobformat.specs.Format.{Answers, Fine};
ghost use Rattle.jobformat.specs.Reading.{reading};
ghost use Rattle.jobfile.specs.Seen.{entry_of};
ghost use Rattle.book.specs.Books.{within};
ghost use Rattle.book.specs.Events.{Run};
ghost use Rattle.job.specs.Jobs.{book_of, state_of};
ghost use Rattle.loading.specs.Loaded.{entry_turns, Loads, LoadsByTurns};

use book::JobFault;
use job::Job;
use jobfile::{Reader, Record};
use jobformat::MOST_TYPES;

// Enters what a record of a well-formed file holds. What was not entered there is not entered here.
fn enter(job: &mut Job, kind: u8, record: Record<'_>) -> Result<(), JobFault>
    requires known { within kind (length (book_of job.old).types) ≡ true }
    requires fine { Fine (length (book_of job.old).nozzles) (entry_of «record») }
    ensures done { result ≡ Ok tt }
    ensures turns { Run (state_of job.old) (entry_turns kind (entry_of «record».entry)) (state_of job.new) }
{
    let fields = record.fields();
    if let Some(quantity) = fields.quantity {
        job.enter_quantity(kind, u32::from(quantity))?;
    }
    if let Some(mask) = fields.mask {
        job.enter_mask(kind, mask, fields.limit.map(u32::from))?;
    }
    Ok(())
}

/// Opens a job as a job file says, and enters what its records hold, without the names. A fault of
/// the file is passed on whole, and the job is then as it was.
pub fn load(job: &mut Job, number: u32, bytes: &[u8]) -> Result<(), JobFault>
    ensures answer { Loads number (reading bytes.now) job.old result job.new }
    ensures turns { LoadsByTurns number (reading bytes.now) job.old job.new }
    ensures formed { Answers bytes.now (reading bytes.now) }
{
    let reader = Reader::open(bytes)?;
    job.open(number, reader.types(), reader.nozzles())?;
    for (kind, record) in (1..=MOST_TYPES).zip(reader) {
        enter(job, kind, record)?;
    }
    Ok(())
}
