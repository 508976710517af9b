// The job file: its records, read in place and written into memory that the caller lends.
#![tactic(auto)]

mod copying;
mod entry;
mod parsing;
mod reader;
mod writer;
mod writing;

pub use copying::copy;
pub use entry::Record;
pub use jobformat::FileFault;
pub use reader::Reader;
pub use records::TypeRecord;
pub use refusals::Refusal;
pub use writer::Writer;
