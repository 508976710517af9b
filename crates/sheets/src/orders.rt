// What an order asks for, and which nozzles may take it.
ghost use Rattle.std.specs.Prelude.{◌≡◌, ℕ, ◌<◌, ◌≤◌, false, ◌&&◌, Some, codes, MatchResult};
ghost use Rattle.flows.specs.Flows.{inside};
ghost use Rattle.sheets.specs.Sheets.{serves};
ghost use Rattle.sheets.specs.Boards.{entered, is_entered, most_of};

use crate::{NozzleState, Order};
use records::TypeRecord;
use std::default::MadeWith;
use std::error::Error;
use std::fmt;

/// Why a record is no order: a quantity or a mask was not entered.
#[derive(Clone, Copy, PartialEq, Eq, Debug)]
pub struct NotEntered;

impl fmt::Display for NotEntered {
    ghost output = { λ _. Some (codes "a quantity or a mask was not entered") };

    fn fmt<W: fmt::Write>(&self, f: &mut fmt::Formatter<W>) -> fmt::Result {
        write!(f, "a quantity or a mask was not entered")
    }
}

impl Error for NotEntered {}

impl TryFrom<TypeRecord> for Order {
    type Error = NotEntered;

    ghost try_from_gives = { λ x r. MatchResult r (λ o. x ≡ entered o) (λ _. is_entered x ≡ false) };

    fn try_from(record: TypeRecord) -> Result<Order, NotEntered> {
        match (record.quantity, record.mask) {
            (Some(quantity), Some(mask)) => Ok(Order {
                quantity,
                mask,
                limit: record.limit,
            }),
            _ => Err(NotEntered),
        }
    }
}

// What fills the unused places of a table of orders: an order that was entered, and no invented one.
impl MadeWith<Order> for Order {
    fn made_with(first: Order) -> Order
        ensures { result ≡ first }
    {
        first
    }
}

impl NozzleState {
    /// Whether the nozzle is in service.
    pub(crate) fn is_in_service(&self) -> bool
        ensures { result ≡ serves self.now }
    {
        *self == NozzleState::InService
    }
}

impl Order {
    /// How many pieces are asked for.
    pub(crate) fn pieces(&self) -> u32
        ensures value { result ≡ self.now.quantity }
        ensures small { result ≤ 65535 }
    {
        u32::from(self.quantity)
    }

    /// What one nozzle may take: the limit, or all pieces of the board.
    pub(crate) fn most(&self, all: u32) -> u32
        ensures value { result ≡ most_of self.now.limit all }
        ensures small { (m : ℕ) → self.now.limit ≡ Some m → m ≤ 65535 }
    {
        match self.limit {
            Some(limit) => u32::from(limit),
            None => all,
        }
    }

    /// Whether the nozzle, by its place, is in service and a member of the mask.
    pub(crate) fn goes_to(&self, nozzle: &NozzleState, place: u8) -> bool
        requires { place < 8 }
        ensures { result ≡ (serves nozzle.now && inside self.now.mask place) }
    {
        nozzle.is_in_service() && (self.mask >> place) & 1 == 1
    }
}
