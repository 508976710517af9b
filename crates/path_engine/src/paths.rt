// Paths of the residual network, and what is sent along them.
ghost use Rattle.std.specs.Prelude.{◌≡◌, ◌+◌, ◌^◌, ◌<◌, ◌≤◌, true, length, ◌≢◌, slice_index};
ghost use Rattle.path_engine.specs.Residual.{far_end, Shortest, changed};
ghost use Rattle.path_engine.specs.Searches.{arcs_in, has, room_at, Searched, Carries, Grown, passed};

use crate::search::{Goal, Search};
use crate::steps::LimitedNet;
use flows::Arc;

// Brings an amount to a node by an arc, and says from where.
fn pass(arc: Arc, flow: &mut [u32; 256], k: usize, node: u8, amount: u32) -> u8
    requires inside { k < 256 }
    requires back { arc.tail ≡ node → amount ≤ slice_index flow.old k }
    requires ahead { (arc.tail ≢ node) → slice_index flow.old k + amount < 2 ^ 32 }
    ensures flow { flow.new ≡ passed arc flow.old k node amount }
    ensures from { result ≡ far_end arc node }
{
    if arc.tail == node {
        flow[k] -= amount;
        arc.head
    } else {
        flow[k] += amount;
        arc.tail
    }
}

impl Search {
    /// Sends as much more as can go along the path that was found, one of the fewest arcs, and says
    /// how much.
    pub(crate) fn augment(&self, net: LimitedNet<'_>, flow: &mut [u32; 256]) -> u32
        requires flow { Carries net flow.old }
        requires searched { Searched net flow.old Goal.Sink self.now }
        requires found { has self.now 1 ≡ true }
        ensures shortest { Shortest net.entry.limit.value (arcs_in net.entry) flow.old 1 (changed flow.old flow.new (length (arcs_in net.entry))) }
        ensures grown { Grown net.entry flow.old flow.new result }
        ensures all { result ≡ room_at self.now 1 }
        ensures some { (0 < result) × (result ≤ room_at self.now 0) }
    {
        let arcs = net.arcs();
        let amount = self.labels[1].room;
        let mut node = 1;
        while node != 0 {
            let k = self.came[node as usize] as usize;
            node = pass(arcs[k], flow, k, node, amount);
        }
        amount
    }
}
