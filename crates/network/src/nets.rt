// A network: its nodes and its arcs.
ghost use Rattle.std.specs.Prelude.{◌≡◌, not, length, position};
ghost use Rattle.network.specs.Rules.{CountsOk, ArcsOk, arc_ok};

use crate::amounts::MOST;
use crate::faults::NetworkFault;
use arrayvec::ArrayVec;
use flows::{Arc, Capacity};

/// A network of 2 to 64 nodes, of which 0 is the source and 1 the sink, and up to 256 arcs, in a
/// table of its own.
#[derive(Drop)]
pub struct Network {
    nodes: u8,
    arcs: ArrayVec<Arc, 256>,
    ghost counts: { CountsOk nodes (length arcs.items) },
    ghost rules: { ArcsOk nodes (length arcs.items) arcs.items },
}

impl Network {
    ghost use Rattle.std.specs.Prelude.{[], Ok, Err};
    ghost use Rattle.network.specs.Nets.{arcs_of};
    ghost use Rattle.network.specs.Rules.{Refused};

    /// The source and the sink, and no arc.
    pub fn empty() -> Network
        ensures nodes { result.nodes ≡ 2 }
        ensures arcs { arcs_of result ≡ [] }
    {
        Network {
            nodes: 2,
            arcs: ArrayVec::new(),
        }
    }

    /// How many nodes there are.
    pub fn nodes(&self) -> u8
        ensures { result ≡ self.now.nodes }
    {
        self.nodes
    }

    /// The arcs, in the order in which they were given.
    pub fn arcs(&self) -> &[Arc]
        ensures { result.now ≡ arcs_of self.now }
    {
        self.arcs.as_slice()
    }

    /// Takes these nodes and arcs in place of those that it had, or refuses them and stays as it
    /// was.
    pub fn fill(&mut self, nodes: u8, arcs: &[Arc]) -> Result<(), NetworkFault>
        ensures { elim result [ Ok _ ↦ (self.new.nodes ≡ nodes) × (arcs_of self.new ≡ arcs.now) | Err e ↦ (self.new ≡ self.old) × Refused nodes arcs.now e ] }
    {
        if nodes < 2 || nodes > 64 || arcs.len() > 256 {
            return Err(NetworkFault::BadCount);
        }
        if let Some(arc) = first_bad(nodes, arcs) {
            return Err(NetworkFault::BadArc { arc });
        }
        self.nodes = nodes;
        self.arcs.clear();
        self.arcs.try_extend_from_slice(arcs).unwrap();
        Ok(())
    }
}

// The lowest arc that breaks a rule of a network of so many nodes.
fn first_bad(nodes: u8, arcs: &[Arc]) -> Option<usize>
    ensures { result ≡ position (λ a. not (arc_ok nodes a)) arcs.now }
{
    arcs.iter().position(|arc| !keeps_rules(nodes, *arc))
}

// Whether an arc keeps the rules of a network of so many nodes.
fn keeps_rules(nodes: u8, arc: Arc) -> bool
    ensures { result ≡ arc_ok nodes arc }
{
    let is_small = match arc.capacity {
        Capacity::Fixed(most) => most <= MOST,
        Capacity::Counted => true,
    };
    arc.tail < nodes
        && arc.head < nodes
        && arc.tail != arc.head
        && arc.head != 0
        && arc.tail != 1
        && is_small
}
