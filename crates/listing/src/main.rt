// Small networks against a full listing: every flow, every side and every limit is listed, and both
// engines and the search are held to what the listing says.
#![tactic(auto)]

mod cases;
mod held;
mod listed;

use cases::{Tally, Trial, random_networks, small_networks};

const SEED: u32 = 20_261_117;

const RANDOM: u32 = 1_500;

fn run(rt: &HostRuntime) -> anyhow::Result<()> {
    let mut trial = Trial::new();
    small_networks(rt.alloc(), &mut trial)?;
    let networks = trial.tally.networks;
    println!(rt; "every network of the small kind: {networks}")?;
    random_networks(rt.alloc(), SEED, RANDOM, &mut trial)?;
    println!(rt; "random networks: {RANDOM}, seed {SEED}")?;
    let Tally {
        networks,
        runs,
        searches,
        disagreements,
    } = trial.tally;
    println!(rt; "networks {networks}, runs {runs}, searches {searches}")?;
    println!(rt; "disagreements {disagreements}")?;
    Ok(())
}

fn main(rt: HostRuntime) -> anyhow::Result<()> {
    run(&rt)
}
