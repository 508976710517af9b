// Worked examples of boards: gaps, networks and rows, and the search on small boards.
#![tactic(auto)]

#[cfg(test)]
mod boards;
