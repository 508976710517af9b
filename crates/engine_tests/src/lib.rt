// Worked examples of the flow engines and of the search with them.
#![tactic(auto)]

#[cfg(test)]
mod runs;
#[cfg(test)]
mod samples;
#[cfg(test)]
mod searches;
