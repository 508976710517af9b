// What is done at one node after another, until nothing is left to be done.
ghost use Rattle.std.specs.Prelude.{◌≡◌, ℕ, true, length};
ghost use Rattle.path_engine.specs.Searches.{arcs_in};
ghost use Rattle.push_engine.specs.Preflows.{Holds, pending, pushable, sent, raised};
ghost use Rattle.push_engine.specs.Props.{Holds-prop};
ghost use Rattle.push_engine.specs.Moves.{CanPush, CanRelabel, Stepped, Settled};
ghost use Rattle.push_engine.specs.Lines.{Queued, QueuedBut, Taken, Drained};

use crate::preflow::Preflow;
use line::NodeLine;

/// A preflow between two moves.
#[derive(Drop)]
struct Work<'a> {
    preflow: Preflow<'a>,
    ghost holds: { Holds preflow } by { Holds-prop preflow },
}

impl Work<'_> {
    // Pushes as much as can go from a node by an arc. The other end joins the queue, if only now
    // something is to be done there.
    fn push(&mut self, queue: &mut NodeLine<'_, u8>, node: u8, k: usize)
        requires taken { Taken self.old.preflow node queue.old }
        requires can { CanPush self.old.preflow node k }
        ensures pushed { self.new.preflow
            ≡ sent self.old.preflow k node (pushable self.old.preflow k node) }
        ensures queued { QueuedBut self.new.preflow node queue.new }
    {
        let preflow = &mut self.preflow;
        let arc = preflow.task.net.arcs()[k];
        let step = preflow.task.net.step_from(arc, preflow.flow[k], node);
        let waited = preflow.is_pending(step.to);
        preflow.send(k, node, step.residual.min(preflow.excess(node)));
        if !waited && preflow.is_pending(step.to) {
            queue.push(step.to).unwrap();
        }
    }

    // Raises a node that has left the queue. It joins the queue again, if something is still to be
    // done there.
    fn relabel(&mut self, queue: &mut NodeLine<'_, u8>, node: u8, height: u8)
        requires taken { Taken self.old.preflow node queue.old }
        requires can { CanRelabel self.old.preflow node height
            (length (arcs_in self.old.preflow.task.net)) }
        ensures raised { self.new.preflow ≡ raised self.old.preflow node height }
        ensures queued { Queued self.new.preflow queue.new }
    {
        self.preflow.nodes[node as usize].height = height;
        if self.preflow.is_pending(node) {
            queue.push(node).unwrap();
        }
    }

    // Pushes from a node to lower ones, until nothing waits there, or says how high the node is to
    // be raised: one above the lowest node to which more could go, and at most to its ceiling.
    fn push_down(&mut self, queue: &mut NodeLine<'_, u8>, node: u8) -> Option<u8>
        requires { Taken self.old.preflow node queue.old }
        ensures { Drained self.old.preflow node self.new.preflow queue.new result }
    {
        let height = self.preflow.height(node);
        let mut next = self.preflow.ceiling(node);
        let arcs = self.preflow.task.net.arcs();
        for (k, arc) in arcs.iter().enumerate() {
            let preflow = &self.preflow;
            let step = preflow.task.net.step_from(*arc, preflow.flow[k], node);
            if step.residual > 0 {
                let end = preflow.height(step.to);
                if end >= height {
                    next = next.min(end + 1);
                } else {
                    self.push(queue, node, k);
                    if self.preflow.excess(node) == 0 {
                        return None;
                    }
                }
            }
        }
        Some(next)
    }

    // Works at a node that has left the queue, until nothing waits there or the node is raised.
    fn discharge(&mut self, queue: &mut NodeLine<'_, u8>, node: u8)
        requires { Taken self.old.preflow node queue.old }
        ensures stepped { Stepped self.old.preflow self.new.preflow }
        ensures queued { Queued self.new.preflow queue.new }
    {
        if let Some(height) = self.push_down(queue, node) {
            self.relabel(queue, node, height);
        }
    }
}

impl<'a> Preflow<'a> {
    /// Pushes what waits at node 0 as far as it goes, and what goes no further back.
    pub(crate) fn settle(self) -> Preflow<'a>
        requires holds { Holds self }
        requires start { (u : ℕ) → pending self u ≡ true → u ≡ 0 }
        ensures { Settled self.entry.task result }
    {
        let mut places = [0; 64];
        let mut queue = NodeLine::new(&mut places);
        if self.is_pending(0) {
            queue.push(0).unwrap();
        }
        let mut work = Work { preflow: self };
        while let Some(node) = queue.pop() {
            work.discharge(&mut queue, node);
        }
        work.preflow
    }
}
