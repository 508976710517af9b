// What the job layer refuses.
ghost use Rattle.std.specs.Prelude.{◌≡◌, Some};
ghost use Rattle.book.specs.declared.faults.JobFault.TheVariants.{File, Network};
ghost use Rattle.book.specs.Faults.{number_of, layer_of, place_of, of_board, fault_text};

use jobformat::FileFault;
use network::NetworkFault;
use refusals::Refusal;
use sheets::BoardFault;
use std::error::Error;
use std::fmt;

/// A refusal of the job layer, or one of a lower layer, passed on whole.
#[derive(Clone, Copy, PartialEq, Eq, Debug)]
pub enum JobFault {
    /// Not 1 to 24 types and 1 to 8 nozzles.
    BadSize,
    /// The job has no type of this number.
    NoSuchType { kind: u8 },
    /// The job has no nozzle of this number.
    NoSuchNozzle { nozzle: u8 },
    /// A quantity or a limit above 65,535, or a mask beyond the nozzles, for this type.
    TooLarge { kind: u8 },
    /// The nozzle to take out is not in service.
    NotInService { nozzle: u8 },
    /// The ticket is of another job, or its nozzle is not out here.
    NotOut { nozzle: u8 },
    /// The lowest type of which a quantity or a mask was not entered.
    NotEntered { kind: u8 },
    /// There is no plan to show a subtour of, or no outcome to show a step of.
    NoPlan,
    /// The plan has no such subtour, or the trail no such step.
    NoSuchPart { number: u32 },
    /// The lent memory has too few places; so many are needed in all.
    NoRoom { needed: usize },
    File(FileFault),
    Network(NetworkFault),
}

impl Refusal for JobFault {
    ghost number = { number_of };

    ghost layer = { layer_of };

    ghost place = { place_of };

    fn number(&self) -> u8 {
        match self {
            JobFault::BadSize => 1,
            JobFault::NoSuchType { .. } | JobFault::NoSuchNozzle { .. } => 2,
            JobFault::TooLarge { .. } => 3,
            JobFault::NotInService { .. } => 4,
            JobFault::NotOut { .. } => 5,
            JobFault::NotEntered { .. } => 6,
            JobFault::NoPlan => 7,
            JobFault::NoSuchPart { .. } => 8,
            JobFault::NoRoom { .. } => 9,
            JobFault::File(fault) => fault.number(),
            JobFault::Network(fault) => fault.number(),
        }
    }

    fn layer(&self) -> u8 {
        match self {
            JobFault::File(fault) => fault.layer(),
            JobFault::Network(fault) => fault.layer(),
            _ => 3,
        }
    }

    /// Where: a type, a nozzle, the number given, or the places needed.
    fn place(&self) -> usize {
        match self {
            JobFault::BadSize | JobFault::NoPlan => 0,
            JobFault::NoSuchType { kind }
            | JobFault::TooLarge { kind }
            | JobFault::NotEntered { kind } => usize::from(*kind),
            JobFault::NoSuchNozzle { nozzle }
            | JobFault::NotInService { nozzle }
            | JobFault::NotOut { nozzle } => usize::from(*nozzle),
            JobFault::NoSuchPart { number } => *number as usize,
            JobFault::NoRoom { needed } => *needed,
            JobFault::File(fault) => fault.place(),
            JobFault::Network(fault) => fault.place(),
        }
    }
}

impl fmt::Display for JobFault {
    ghost output = { λ fault. Some (fault_text fault) };

    fn fmt<W: fmt::Write>(&self, f: &mut fmt::Formatter<W>) -> fmt::Result {
        match self {
            JobFault::BadSize => write!(f, "not 1 to 24 types and 1 to 8 nozzles"),
            JobFault::NoSuchType { kind } => write!(f, "the job has no type {kind}"),
            JobFault::NoSuchNozzle { nozzle } => write!(f, "the job has no nozzle {nozzle}"),
            JobFault::TooLarge { kind } => { write!(f, "a figure for type {kind} is too large") }
            JobFault::NotInService { nozzle } => write!(f, "nozzle {nozzle} is not in service"),
            JobFault::NotOut { nozzle } => {
                write!(
                    f,
                    "the ticket for nozzle {nozzle} is not for a nozzle out here"
                )
            }
            JobFault::NotEntered { kind } => {
                write!(f, "a quantity or a mask of type {kind} was not entered")
            }
            JobFault::NoPlan => write!(f, "nothing is planned"),
            JobFault::NoSuchPart { number } => { write!(f, "there is no subtour or step {number}") }
            JobFault::NoRoom { needed } => {
                write!(f, "the memory is too small, needed in places: {needed}")
            }
            JobFault::File(fault) => write!(f, "{fault}"),
            JobFault::Network(fault) => write!(f, "{fault}"),
        }
    }
}

impl Error for JobFault {}

impl From<FileFault> for JobFault {
    ghost from_gives = { λ e r. r ≡ File e };

    fn from(fault: FileFault) -> JobFault {
        JobFault::File(fault)
    }
}

impl From<NetworkFault> for JobFault {
    ghost from_gives = { λ e r. r ≡ Network e };

    fn from(fault: NetworkFault) -> JobFault {
        JobFault::Network(fault)
    }
}

impl From<BoardFault> for JobFault {
    ghost from_gives = { λ e r. r ≡ of_board e };

    fn from(fault: BoardFault) -> JobFault {
        match fault {
            BoardFault::BadSize => JobFault::BadSize,
            BoardFault::NotEntered { kind } => JobFault::NotEntered { kind },
        }
    }
}
