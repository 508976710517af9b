// A flow engine by shortest augmenting paths, and the set of nodes that the source reaches.
#![tactic(auto)]

mod engine;
mod paths;
mod search;
mod steps;

pub use engine::{PathEngine, ShortestPaths, reach};
pub use steps::{LimitedNet, Step, far_end, residual_from};
