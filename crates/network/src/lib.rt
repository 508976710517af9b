// Networks, their sides, and what a flow engine is.
#![tactic(auto)]

mod amounts;
mod engines;
mod faults;
mod nets;
mod sides;

pub use amounts::Amount;
pub use engines::{Answer, CountingEngine, Engine, Method};
pub use faults::NetworkFault;
pub use flows::{Arc, Capacity};
pub use nets::Network;
pub use refusals::Refusal;
pub use sides::{Cut, Side};
