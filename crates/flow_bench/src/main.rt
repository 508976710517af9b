// Runs a flow engine many times on the network of a full board, for timing:
// flow_bench RUNS ENGINE, with `path` or `push` for ENGINE.
#![tactic(auto)]

use anyhow::anyhow;
use engines::AnyEngine;
use network::{Amount, Answer, Arc, Engine, Network};
use records::{MOST_NOZZLES as NOZZLES, MOST_TYPES as TYPES};
use std::alloc::{AllocError, Global};
use std::env;

/// What is wanted: a million pieces.
const WANTED: u32 = 1_000_000;

/// The least limit under which the board takes them, and the one below it.
const LIMITS: [u32; 2] = [125_000, 124_999];

/// The arcs of a board of 24 types and 8 nozzles, each of which may take every type.
fn full_board(heap: Global) -> Result<Vec<Arc>, AllocError> {
    let mut arcs = Vec::new(heap);
    for t in 0..TYPES {
        let quantity = 41_000 + 58 * u32::from(t);
        arcs.push(Arc::fixed(0, t + 2, quantity))?;
    }
    for t in 0..TYPES {
        for j in 0..NOZZLES {
            let limit = 5_000 + 640 * ((u32::from(t) * 7 + u32::from(j) * 3) % 11);
            arcs.push(Arc::fixed(t + 2, TYPES + 2 + j, limit))?;
        }
    }
    for j in 0..NOZZLES {
        arcs.push(Arc::counted(TYPES + 2 + j, 1))?;
    }
    Ok(arcs)
}

/// Runs the engine so many times, under each limit in turn, and says how often it reached all.
fn repeat<E: Engine>(
    engine: &mut E,
    net: &Network,
    limits: [Amount; 2],
    wanted: Amount,
    runs: u32,
) -> u32 {
    let mut flow = [0; 256];
    let mut reached = 0u32;
    for limit in limits.iter().cycle().take(runs as usize) {
        if let Answer::Reached = engine.run(net, *limit, wanted, &mut flow) {
            reached = reached.saturating_add(1);
        }
    }
    reached
}

fn run(rt: &HostRuntime) -> anyhow::Result<()> {
    let mut args = env::args(rt)?;
    let _program = args.next();
    let (Some(runs), Some(name)) = (args.next(), args.next()) else {
        return Err(anyhow!("usage: flow_bench RUNS ENGINE, with path or push for ENGINE"));
    };
    let runs = runs.parse::<u32>()?;
    let mut engine = name.parse::<AnyEngine>()?;
    let arcs = full_board(rt.alloc())?;
    let mut net = Network::empty();
    net.fill(TYPES + NOZZLES + 2, arcs.as_slice())?;
    let limits = LIMITS.try_map(Amount::try_from)?;
    let wanted = Amount::try_from(WANTED)?;
    let reached = repeat(&mut engine, &net, limits, wanted, runs);
    println!(rt; "{name} runs {runs} reached {reached}")?;
    Ok(())
}

fn main(rt: HostRuntime) -> anyhow::Result<()> {
    run(&rt)
}
