// Worked examples of the job file: each refusal, each edge, and the round trip.
#![tactic(auto)]

#[cfg(test)]
mod reading;
#[cfg(test)]
mod writing;
