// A job: turns of its users, plans by any flow engine, and sheets of subtours.
#![tactic(auto)]

mod job;

pub use job::{Job, Returned, Ticket};
