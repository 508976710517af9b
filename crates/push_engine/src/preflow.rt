// Preflows: what arcs carry, what waits at nodes, and how high nodes stand.
ghost use Rattle.std.specs.Prelude.{◌≡◌, ◌<◌, ◌≤◌, length, slice_index};

use network::Amount;
use path_engine::{LimitedNet, far_end};

/// What a run is asked: so much from node 0 to node 1 of a network under a limit.
#[derive(Clone, Copy)]
pub(crate) struct Task<'a> {
    pub(crate) net: LimitedNet<'a>,
    pub(crate) wanted: Amount,
}

/// What waits at a node, and how high it stands.
#[derive(Clone, Copy)]
pub(crate) struct Node {
    pub(crate) excess: u32,
    pub(crate) height: u8,
}

/// What each arc carries, and the nodes.
#[derive(Drop)]
pub(crate) struct Preflow<'a> {
    pub(crate) task: Task<'a>,
    pub(crate) flow: [u32; 256],
    pub(crate) nodes: [Node; 64],
}

impl<'a> Preflow<'a> {
    ghost use Rattle.path_engine.specs.Searches.{arcs_in, nodes_in, residual_in};
    ghost use Rattle.push_engine.specs.Preflows.{excess_of, heights_of, ceiling, Holds, fresh, pending, sent};

    /// Nothing flows, and all that is wanted waits at node 0.
    pub(crate) fn new(task: Task<'a>) -> Preflow<'a>
        ensures { result ≡ fresh task.entry }
    {
        let idle = Node {
            excess: 0,
            height: 0,
        };
        let mut nodes = [idle; 64];
        nodes[0].excess = task.wanted.value();
        Preflow {
            task,
            flow: [0; 256],
            nodes,
        }
    }

    /// What waits at a node.
    pub(crate) fn excess(&self, node: u8) -> u32
        requires { node < 64 }
        ensures { result ≡ slice_index (excess_of self.now) node }
    {
        self.nodes[node as usize].excess
    }

    /// How high a node stands.
    pub(crate) fn height(&self, node: u8) -> u8
        requires { node < 64 }
        ensures { result ≡ slice_index (heights_of self.now) node }
    {
        self.nodes[node as usize].height
    }

    /// How high a node may stand. Node 0 at its ceiling keeps what waits there, and other nodes never
    /// come so high with anything that waits.
    pub(crate) fn ceiling(&self, node: u8) -> u8
        ensures { result ≡ ceiling (nodes_in self.now.task.net) node }
    {
        if node == 0 {
            self.task.net.nodes()
        } else {
            2 * self.task.net.nodes()
        }
    }

    /// Whether something is to be done at a node.
    pub(crate) fn is_pending(&self, node: u8) -> bool
        ensures { result ≡ pending self.now node }
    {
        node < self.task.net.nodes()
            && node != 1
            && self.excess(node) > 0
            && self.height(node) < self.ceiling(node)
    }

    /// Sends an amount from a node to the other end of an arc.
    pub(crate) fn send(&mut self, k: usize, node: u8, amount: u32)
        requires holds { Holds self.old }
        requires inside { k < length (arcs_in self.old.task.net) }
        requires node { node < nodes_in self.old.task.net }
        requires fits { amount ≤ residual_in self.old.task.net self.old.flow k node }
        requires waits { amount ≤ slice_index (excess_of self.old) node }
        ensures { self.new ≡ sent self.old k node amount }
    {
        let arc = self.task.net.arcs()[k];
        let carried = if arc.tail == node {
            self.flow[k] + amount
        } else {
            self.flow[k] - amount
        };
        self.flow[k] = carried;
        self.nodes[node as usize].excess -= amount;
        self.nodes[far_end(arc, node) as usize].excess += amount;
    }
}
