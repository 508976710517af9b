// The steps of the residual network: an arc, as one of its ends sees it.
ghost use Rattle.std.specs.Prelude.{◌≡◌, ◌==◌, ◌||◌};
ghost use Rattle.path_engine.specs.Residual.{far_end, residual_of};
ghost use Rattle.path_engine.specs.Searches.{arcs_in, nodes_in};

use flows::Arc;
use network::{Amount, Network};

/// The other end of an arc that ends at a node.
pub fn far_end(arc: Arc, node: u8) -> u8
    ensures { result ≡ far_end arc node }
{
    if arc.tail == node { arc.head } else { arc.tail }
}

/// Whether a node is one of an arc's ends: by no other arc can anything leave it.
pub(crate) fn ends_at(arc: &Arc, node: u8) -> bool
    ensures { result ≡ (arc.now.tail == node || arc.now.head == node) }
{
    arc.tail == node || arc.head == node
}

/// How much more can leave a node by an arc that carries so much.
pub fn residual_from(arc: Arc, carried: u32, limit: Amount, node: u8) -> u32
    ensures { result ≡ residual_of limit.value arc carried node }
{
    if arc.tail == node {
        arc.capacity_under(limit.value()).saturating_sub(carried)
    } else if arc.head == node {
        carried
    } else {
        0
    }
}

/// Where an arc leads from one of its ends, and how much more can go there.
#[derive(Clone, Copy)]
pub struct Step {
    pub to: u8,
    pub residual: u32,
}

/// A network under a limit.
#[derive(Clone, Copy)]
pub struct LimitedNet<'a> {
    pub net: &'a Network,
    pub limit: Amount,
}

impl<'a> LimitedNet<'a> {
    /// How many nodes there are.
    pub fn nodes(self) -> u8
        ensures { result ≡ nodes_in self.entry }
    {
        self.net.nodes()
    }

    /// The arcs, in the order in which they were given.
    pub fn arcs(self) -> &'a [Arc]
        ensures { result.now ≡ arcs_in self.entry }
    {
        self.net.arcs()
    }

    /// The step that an arc which carries so much allows from a node.
    pub fn step_from(self, arc: Arc, carried: u32, node: u8) -> Step
        ensures to { result.to ≡ far_end arc node }
        ensures residual { result.residual ≡ residual_of self.entry.limit.value arc carried node }
    {
        Step {
            to: far_end(arc, node),
            residual: residual_from(arc, carried, self.limit, node),
        }
    }
}
