// The record of a component type, in a job file and in a job, and how many types and nozzles there can be.
#![tactic(auto)]

/// The most types that a file or a job can have; it has one at least.
pub const MOST_TYPES: u8 = 24;

/// The most nozzles that a file or a job can have; it has one at least.
pub const MOST_NOZZLES: u8 = 8;

/// What is entered of a component type: `None` is not entered, or no limit, and never 0. Bit j - 1
/// of the mask stands for nozzle j. In a new record nothing is entered.
#[derive(Clone, Copy, PartialEq, Eq, Debug, Default)]
pub struct TypeRecord {
    pub quantity: Option<u16>,
    pub mask: Option<u8>,
    pub limit: Option<u16>,
}
