// Worked examples of networks: each rule, each refusal, sides and cuts.
#![tactic(auto)]

#[cfg(test)]
mod networks;
