// What is wrong with a job file, or with what was to be written, and where. The crate's specs/ say
// what a job file is, and its proofs/ hold the laws of reading and writing one.
#![tactic(auto)]

ghost use Rattle.std.specs.Prelude.{Some};
ghost use Rattle.jobformat.specs.Faults.{number_of, layer_of, place_of, fault_text};

pub use records::{MOST_NOZZLES, MOST_TYPES};
pub use refusals::Refusal;
use std::error::Error;
use std::fmt;

/// The longest name of a type in bytes.
pub const LONGEST_NAME: u8 = 20;

/// The longest record in bytes: its map, its fields, and a name of 20 bytes behind its length.
pub const LONGEST_RECORD: usize = 27;

/// The longest file in bytes: the two of its header, and its records.
pub const LONGEST: usize = 2 + LONGEST_RECORD * MOST_TYPES as usize;

/// A refusal of the file layer.
#[derive(Clone, Copy, PartialEq, Eq, Debug)]
pub enum FileFault {
    /// The header to write is out of range: 1 to 24 types, 1 to 8 nozzles.
    HeaderRange,
    /// No file can hold the record to write; `place` is the number of bytes written.
    Unwritable { place: usize },
    /// One record more than the header says; `place` is its number.
    NoSuchRecord { place: usize },
    /// The lent memory is too small; `place` is the number of bytes needed in all.
    NoRoom { place: usize },
    /// The file ends too early; `place` is the number of bytes there.
    EndsEarly { place: usize },
    /// A byte breaks the layout, or follows the last record; `place` is its index.
    BadByte { place: usize },
}

impl Refusal for FileFault {
    ghost number = { number_of };

    ghost layer = { layer_of };

    ghost place = { place_of };

    fn number(&self) -> u8 {
        match self {
            FileFault::HeaderRange => 1,
            FileFault::Unwritable { .. } => 3,
            FileFault::NoSuchRecord { .. } => 8,
            FileFault::NoRoom { .. } => 9,
            FileFault::EndsEarly { .. } => 11,
            FileFault::BadByte { .. } => 12,
        }
    }

    fn layer(&self) -> u8 {
        1
    }

    /// A byte's index, a count of bytes, or a record's number.
    fn place(&self) -> usize {
        match self {
            FileFault::HeaderRange => 0,
            FileFault::Unwritable { place }
            | FileFault::NoSuchRecord { place }
            | FileFault::NoRoom { place }
            | FileFault::EndsEarly { place }
            | FileFault::BadByte { place } => *place,
        }
    }
}

impl fmt::Display for FileFault {
    ghost output = { λ f. Some (fault_text f) };

    fn fmt<W: fmt::Write>(&self, f: &mut fmt::Formatter<W>) -> fmt::Result {
        match self {
            FileFault::HeaderRange => {
                write!(
                    f,
                    "the header is out of range: 1 to 24 types, 1 to 8 nozzles"
                )
            }
            FileFault::Unwritable { place } => {
                write!(f, "no job file can hold the record behind byte {place}")
            }
            FileFault::NoSuchRecord { place } => write!(f, "the header has no record {place}"),
            FileFault::NoRoom { place } => {
                write!(f, "the memory is too small, needed in bytes: {place}")
            }
            FileFault::EndsEarly { place } => {
                write!(f, "the file ends too early, length in bytes: {place}")
            }
            FileFault::BadByte { place } => {
                write!(f, "no job file has such a byte at index {place}")
            }
        }
    }
}

impl Error for FileFault {}
