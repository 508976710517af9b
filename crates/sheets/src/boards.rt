// A board to plan: complete orders, and the states of the nozzles.
ghost use Rattle.std.specs.Prelude.{◌≤◌, Some, length};
ghost use Rattle.sheets.specs.Faults.{fault_text};

use crate::{NozzleState, Order};
use arrayvec::ArrayVec;
use std::error::Error;
use std::fmt;

mod calls;
mod picks;

/// Why a book is no board: it has not 1 to 24 types and 1 to 8 nozzles, or a quantity or a mask was
/// not entered, of the lowest such type.
#[derive(Clone, Copy, PartialEq, Eq, Debug)]
pub enum BoardFault {
    BadSize,
    NotEntered { kind: u8 },
}

impl fmt::Display for BoardFault {
    ghost output = { λ fault. Some (fault_text fault) };

    fn fmt<W: fmt::Write>(&self, f: &mut fmt::Formatter<W>) -> fmt::Result {
        match self {
            BoardFault::BadSize => write!(f, "not 1 to 24 types and 1 to 8 nozzles"),
            BoardFault::NotEntered { kind } => {
                write!(f, "a quantity or a mask of type {kind} was not entered")
            }
        }
    }
}

impl Error for BoardFault {}

/// A board: 1 to 24 orders and 1 to 8 nozzles. The unused places of the orders' table hold the
/// first order.
#[derive(Drop)]
pub struct Board {
    orders: ArrayVec<Order, 24, Order>,
    nozzles: ArrayVec<NozzleState, 8>,
    ghost some_types: { 1 ≤ length orders.items },
    ghost few_types: { length orders.items ≤ 24 },
    ghost some_nozzles: { 1 ≤ length nozzles.items },
    ghost few_nozzles: { length nozzles.items ≤ 8 },
}
