// Sheets of subtours, and the network that decides how few will do.
#![tactic(auto)]

ghost use Rattle.sheets.specs.Laws.{NoSheetOfAGap, SheetGivesFlow, FlowGivesSheet, NoneFewer, NoSheet, BoardKeepsRules};

mod boards;
mod orders;

pub use boards::{Board, BoardFault};
pub use orders::NotEntered;
pub use records::TypeRecord;

/// The state of a nozzle.
#[derive(Clone, Copy, PartialEq, Eq, Debug, Default)]
pub enum NozzleState {
    #[default]
    InService,
    Out,
    Scrapped,
}

/// A type of which all is entered that a plan needs.
#[derive(Clone, Copy, PartialEq, Eq, Debug)]
pub struct Order {
    pub quantity: u16,
    pub mask: u8,
    pub limit: Option<u16>,
}

/// Where a quantity was not entered there is no sheet.
pub fn gap_has_no_sheet()
    ensures { NoSheetOfAGap }
{}

/// A sheet gives a flow of all pieces under the limit of its subtours.
pub fn sheet_gives_flow()
    ensures { SheetGivesFlow }
{}

/// A flow of all pieces under a limit gives a sheet of so many subtours.
pub fn flow_gives_sheet()
    ensures { FlowGivesSheet }
{}

/// If no smaller limit admits all pieces, no sheet has fewer subtours.
pub fn least_limit_is_fewest()
    ensures { NoneFewer }
{}

/// If no limit admits all pieces, there is no sheet of any length.
pub fn no_limit_no_sheet()
    ensures { NoSheet }
{}

/// The network of a board keeps the rules of networks.
pub fn board_keeps_rules()
    ensures { BoardKeepsRules }
{}
