// The engine that pushes preflows.
ghost use Rattle.std.specs.Prelude.{◌≡◌};
ghost use Rattle.flows.specs.Flows.{inside};
ghost use Rattle.network.specs.Nets.{arcs_of};
ghost use Rattle.network.specs.Runs.{Shown, ZeroAfter};
ghost use Rattle.network.specs.declared.engines.Answer.TheVariants.{Reached, Short};
ghost use Rattle.path_engine.specs.Residual.{Innermost};

use crate::preflow::{Preflow, Task};
use network::{Amount, Answer, CountingEngine, Method, Network};
use path_engine::{LimitedNet, reach};

/// Finds flows by preflows and node heights.
#[derive(Clone, Copy)]
pub struct PreflowPush;

impl Method for PreflowPush {
    /// Pushes all that is wanted in at node 0, and back what does not come through to node 1.
    fn solve(net: &Network, limit: Amount, wanted: Amount, flow: &mut [u32; 256]) -> Answer
        ensures shown { Shown net.now.nodes limit.value wanted.value (arcs_of net.now) flow.new result }
        ensures least { elim result [ Reached ↦ Unit {0} | Short side ↦ Innermost net.now.nodes limit.value (arcs_of net.now) flow.new (inside side.bits) ] }
        ensures rest { ZeroAfter (arcs_of net.now) flow.new }
    {
        let task = Task {
            net: LimitedNet { net, limit },
            wanted,
        };
        let preflow = Preflow::new(task).settle();
        *flow = preflow.flow;
        if preflow.excess(0) == 0 {
            return Answer::Reached;
        }
        Answer::Short {
            side: reach(net, limit, flow),
        }
    }
}

/// An engine that pushes preflows.
pub type PushEngine = CountingEngine<PreflowPush>;
