// What the network layer refuses.
ghost use Rattle.network.specs.Faults.{number_of, layer_of, place_of, fault_text};
ghost use Rattle.std.specs.Prelude.{Some};

use refusals::Refusal;
use std::error::Error;
use std::fmt;

/// A refusal of the network layer.
#[derive(Clone, Copy, PartialEq, Eq, Debug)]
pub enum NetworkFault {
    /// A limit or a wanted size above 2,000,000.
    TooLarge,
    /// The trail has too few places; `needed` are one more than the network has counted arcs.
    ShortTrail { needed: usize },
    /// Not 2 to 64 nodes, or more than 256 arcs.
    BadCount,
    /// The lowest arc that breaks a rule.
    BadArc { arc: usize },
}

impl Refusal for NetworkFault {
    ghost number = { number_of };

    ghost layer = { layer_of };

    ghost place = { place_of };

    fn number(&self) -> u8 {
        match self {
            NetworkFault::TooLarge => 3,
            NetworkFault::ShortTrail { .. } => 9,
            NetworkFault::BadCount => 10,
            NetworkFault::BadArc { .. } => 10,
        }
    }

    fn layer(&self) -> u8 {
        2
    }

    /// Where: 0 for an amount, the places needed, 256 for a count, or the arc.
    fn place(&self) -> usize {
        match self {
            NetworkFault::TooLarge => 0,
            NetworkFault::ShortTrail { needed } => *needed,
            NetworkFault::BadCount => 256,
            NetworkFault::BadArc { arc } => *arc,
        }
    }
}

impl fmt::Display for NetworkFault {
    ghost output = { λ fault. Some (fault_text fault) };

    fn fmt<W: fmt::Write>(&self, f: &mut fmt::Formatter<W>) -> fmt::Result {
        match self {
            NetworkFault::TooLarge => write!(f, "the amount is above 2000000"),
            NetworkFault::ShortTrail { needed } => {
                write!(f, "the trail is too short, needed in steps: {needed}")
            }
            NetworkFault::BadCount => write!(f, "not 2 to 64 nodes, or more than 256 arcs"),
            NetworkFault::BadArc { arc } => write!(f, "arc {arc} breaks a rule"),
        }
    }
}

impl Error for NetworkFault {}
