// The networks that are tried: every one of a small kind, and random ones.
use crate::held::Case;
use crate::listed::bit;
use engines::AnyEngine;
use network::{Arc, Capacity, Network};
use path_engine::PathEngine;
use push_engine::PushEngine;
use std::alloc::{AllocError, Global};

/// The largest wanted size, and the largest limit that is listed: no more is needed, since a limit
/// that admits a size need not exceed it.
const MOST: u32 = 4;

/// What was tried.
#[derive(Clone, Copy, Default)]
pub(crate) struct Tally {
    pub(crate) networks: u32,
    pub(crate) runs: u32,
    pub(crate) searches: u32,
    pub(crate) disagreements: u32,
}

impl Tally {
    fn note(&mut self, agrees: bool) {
        if !agrees {
            self.disagreements = self.disagreements.saturating_add(1);
        }
    }
}

/// Both engines, and what was tried with them.
#[derive(Drop)]
pub(crate) struct Trial {
    engines: [AnyEngine; 2],
    pub(crate) tally: Tally,
}

impl Trial {
    pub(crate) fn new() -> Trial {
        Trial {
            engines: [
                AnyEngine::Path(PathEngine::new()),
                AnyEngine::Push(PushEngine::new()),
            ],
            tally: Tally::default(),
        }
    }

    /// Tries both engines under one limit.
    fn try_runs(&mut self, case: &Case<'_>, limit: u32, wanted: u32, listed: u64) {
        for engine in self.engines.iter_mut() {
            self.tally
                .note(case.run_agrees(engine, limit, wanted, listed));
            self.tally.runs = self.tally.runs.saturating_add(1);
        }
    }

    /// Tries the search with both engines.
    fn try_searches(&mut self, case: &Case<'_>, wanted: u32, least: Option<usize>) {
        for engine in self.engines.iter_mut() {
            self.tally.note(case.search_agrees(engine, wanted, least));
            self.tally.searches = self.tally.searches.saturating_add(1);
        }
    }

    /// Tries a network with every wanted size and limit.
    fn try_network(&mut self, heap: Global, nodes: u8, arcs: &[Arc]) -> Result<(), AllocError> {
        let mut net = Network::empty();
        if net.fill(nodes, arcs).is_err() {
            self.tally.note(false);
            return Ok(());
        }
        let case = Case {
            net: &net,
            nodes,
            arcs,
        };
        let mut flow = vec![in heap; 0u32; arcs.len()]?;
        let mut by_limit = Vec::new(heap);
        for limit in 0..=MOST {
            let listing = case.under(limit);
            let listed = listing.sizes(flow.as_mut_slice());
            let least = listing.least_capacity();
            self.tally.note(listed & bit(least) != 0 && listed & bit(least.saturating_add(1)) == 0);
            by_limit.push(listed)?;
            for wanted in 0..=MOST {
                self.try_runs(&case, limit, wanted, listed);
            }
        }
        for wanted in 0..=MOST {
            let least = least_limit(by_limit.as_slice(), wanted);
            self.try_searches(&case, wanted, least);
        }
        self.tally.networks = self.tally.networks.saturating_add(1);
        Ok(())
    }
}

/// The least limit under which some flow has the wanted size.
fn least_limit(by_limit: &[u64], wanted: u32) -> Option<usize> {
    let size = bit(i64::from(wanted));
    by_limit.iter().position(|listed| listed & size != 0)
}

/// The places for arcs in a network of four nodes: from the source, to the sink and both ways
/// between the two nodes inside.
const PLACES: [(u8, u8); 7] = [(0, 1), (0, 2), (0, 3), (2, 3), (3, 2), (2, 1), (3, 1)];

/// What can stand at a place: no arc, one of capacity 1 or 2, or a counted one.
const CAPACITIES: [Option<Capacity>; 4] = [
    None,
    Some(Capacity::Fixed(1)),
    Some(Capacity::Fixed(2)),
    Some(Capacity::Counted),
];

/// Tries every network of four nodes with no arc, an arc of capacity 1 or 2, or a counted arc at
/// each place: 4^7 networks.
pub(crate) fn small_networks(heap: Global, trial: &mut Trial) -> Result<(), AllocError> {
    for number in 0..16_384usize {
        let mut arcs = Vec::new(heap);
        let mut rest = number;
        for (tail, head) in PLACES {
            if let Some(capacity) = CAPACITIES[rest % 4] {
                arcs.push(Arc {
                    tail,
                    head,
                    capacity,
                })?;
            }
            rest /= 4;
        }
        trial.try_network(heap, 4, arcs.as_slice())?;
    }
    Ok(())
}

/// A linear congruential generator.
#[derive(Drop)]
struct Random {
    state: u32,
}

impl Random {
    /// A number below `bound`, or 0 where there is none.
    fn below(&mut self, bound: u8) -> u8 {
        self.state = self
            .state
            .wrapping_mul(1_664_525)
            .wrapping_add(1_013_904_223);
        if bound == 0 {
            return 0;
        }
        ((self.state >> 16) % u32::from(bound)) as u8
    }

    /// A node from `first` on, of so many.
    fn node(&mut self, first: u8, nodes: u8) -> u8 {
        first.saturating_add(self.below(nodes.saturating_sub(first)))
    }

    /// An arc that keeps the rules, if the ends drawn do.
    fn arc(&mut self, nodes: u8) -> Option<Arc> {
        let tail = self.node(0, nodes);
        let head = self.node(1, nodes);
        if tail == head || tail == 1 {
            return None;
        }
        let capacity = match self.below(4) {
            0 => Capacity::Counted,
            kind => Capacity::Fixed(u32::from(kind)),
        };
        Some(Arc {
            tail,
            head,
            capacity,
        })
    }
}

/// Tries so many random networks of two to five nodes and up to six arcs, with counted arcs
/// anywhere.
pub(crate) fn random_networks(
    heap: Global,
    seed: u32,
    count: u32,
    trial: &mut Trial,
) -> Result<(), AllocError> {
    let mut random = Random { state: seed };
    for _ in 0..count {
        let nodes = random.below(4).saturating_add(2);
        let wishes = random.below(7);
        let mut arcs = Vec::new(heap);
        arcs.extend((0..wishes).filter_map(|_| random.arc(nodes)))?;
        trial.try_network(heap, nodes, arcs.as_slice())?;
    }
    Ok(())
}
