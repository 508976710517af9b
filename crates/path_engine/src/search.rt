// The breadth-first search over the residual network.
ghost use Rattle.std.specs.Prelude.{◌≡◌, ◌<◌, ◌≤◌, ◌↔◌, true, [], ◌∷◌, ◌++◌, length, IsTrue};
ghost use Rattle.path_engine.specs.Searches.{arcs_in, has, depth_at, room_at, effort, Turn, Searched, begun, discovered};

use crate::steps::{LimitedNet, Step, ends_at};
use line::{NodeLine, Visit};
use network::Side;

/// Where a search is to come: to node 1, or to every node that it can.
#[derive(Clone, Copy, PartialEq, Eq)]
pub(crate) enum Goal {
    Sink,
    AllNodes,
}

/// What is known of a node that was reached: how many arcs lead there, and the bottleneck of these,
/// how much more can go there.
#[derive(Clone, Copy)]
pub(crate) struct Label {
    depth: u8,
    pub(crate) room: u32,
}

/// What a search found: the nodes that it reached, the arc that each of them came by, once its visit
/// has left the line, and what else is known of each.
#[derive(Drop)]
pub(crate) struct Search {
    pub(crate) reached: Side,
    pub(crate) came: [u8; 64],
    pub(crate) labels: [Label; 64],
}

impl Search {
    // Node 0 alone, where so much is to be sent.
    fn begin(most: u32) -> Search
        ensures { result ≡ begun most }
    {
        let mut labels = [Label { depth: 0, room: 0 }; 64];
        labels[0].room = most;
        Search {
            reached: Side { bits: 1 },
            came: [0; 64],
            labels,
        }
    }

    /// Whether node 1 was reached.
    pub(crate) fn found(&self) -> bool
        ensures { result ≡ has self.now 1 }
    {
        self.reached.holds(1)
    }

    // Whether a search that is only to node 1 has reached it.
    fn stops(&self, aim: Goal) -> bool
        ensures { IsTrue result ↔ ((aim ≡ Goal.Sink) × (has self.now 1 ≡ true)) }
    {
        aim == Goal::Sink && self.found()
    }

    // Enters the new node that a step by an arc leads to, and lets it wait.
    #[inline(never)]
    fn discover(&mut self, line: &mut NodeLine<'_, Visit>, from: u8, step: Step, arc: u8)
        requires nodes { (from < 64) × (step.to < 64) }
        requires low { depth_at self.old from < 64 }
        requires places { length line.old < 64 }
        ensures search { self.new ≡ discovered self.old from step }
        ensures line { line.new ≡ line.old ++ record { node = step.to; arc = arc } ∷ [] }
    {
        let bits = self.reached.bits | 1 << step.to;
        self.reached = Side { bits };
        let near = self.labels[from as usize];
        self.labels[step.to as usize] = Label {
            depth: near.depth + 1,
            room: step.residual.min(near.room),
        };
        line.push(Visit { node: step.to, arc }).unwrap();
    }

    // Follows each arc of a node: what it leads to joins the line, if it is new and more can go
    // there. Nearly all of a run's time is spent in this loop, which is kept short: it stands apart,
    // and calls what is rare.
    #[inline(never)]
    fn expand(
        &mut self,
        line: &mut NodeLine<'_, Visit>,
        net: LimitedNet<'_>,
        flow: &[u32; 256],
        node: u8,
    )
        requires { Turn net flow.now self.old line.old node 0 }
        ensures turn { Turn net.entry flow.now self.new line.new node (length (arcs_in net.entry)) }
        ensures most { room_at self.new 0 ≡ room_at self.old 0 }
        ensures fewer { effort self.new line.new ≤ effort self.old line.old }
    {
        let arcs = net.arcs();
        for (k, arc) in arcs.iter().enumerate() {
            if ends_at(arc, node) {
                let step = net.step_from(*arc, flow[k], node);
                if step.residual > 0 && !self.reached.holds(step.to) {
                    self.discover(line, node, step, k as u8);
                }
            }
        }
    }

    /// Searches from node 0, nearest nodes first, for where more can go, at most so much. A search
    /// that is only to node 1 expands no node any more once that is reached, but still takes each
    /// visit that waits, so that the arc to every node is known.
    pub(crate) fn run(net: LimitedNet<'_>, flow: &[u32; 256], most: u32, aim: Goal) -> Search
        requires { 0 < most }
        ensures searched { Searched net.entry flow.now aim result }
        ensures most { room_at result 0 ≡ most }
    {
        let start = Visit { node: 0, arc: 0 };
        let mut places = [start; 64];
        let mut line = NodeLine::new(&mut places);
        line.push(start).unwrap();
        let mut search = Search::begin(most);
        while let Some(visit) = line.pop() {
            search.came[visit.node as usize] = visit.arc;
            if !search.stops(aim) {
                search.expand(&mut line, net, flow, visit.node);
            }
        }
        search
    }
}
