// A flow engine by preflows and node heights.
#![tactic(auto)]

mod engine;
mod preflow;
mod work;

pub use engine::{PreflowPush, PushEngine};
