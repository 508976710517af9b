// The waiting line of the flow engines: first come, first out, in places that the caller lends.
#![tactic(auto)]

mod line;
mod node;
mod nodes;

pub use line::{Full, Line};
pub use node::{NamesNode, Visit};
pub use nodes::NodeLine;
