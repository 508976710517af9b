// The engine that sends along shortest paths.
ghost use Rattle.std.specs.Prelude.{◌≡◌};
ghost use Rattle.flows.specs.Flows.{inside};
ghost use Rattle.network.specs.Nets.{arcs_of};
ghost use Rattle.network.specs.Runs.{Shown, ZeroAfter};
ghost use Rattle.network.specs.declared.engines.Answer.TheVariants.{Reached, Short};
ghost use Rattle.path_engine.specs.Residual.{Innermost};

use crate::search::{Goal, Search};
use crate::steps::LimitedNet;
use network::{Amount, Answer, CountingEngine, Method, Network, Side};

/// The nodes that node 0 reaches over residual arcs, where the list says what each arc carries: from
/// an arc's tail to its head if it carries less than it can under the limit, and back if it carries
/// anything. The list may hold any numbers.
pub fn reach(net: &Network, limit: Amount, flow: &[u32; 256]) -> Side
    ensures { Innermost net.now.nodes limit.value (arcs_of net.now) flow.now (inside result.bits) }
{
    // however little is to be sent, it can go to the same nodes
    Search::run(LimitedNet { net, limit }, flow, 1, Goal::AllNodes).reached
}

/// Finds flows by shortest augmenting paths.
#[derive(Clone, Copy)]
pub struct ShortestPaths;

impl Method for ShortestPaths {
    /// Sends more along shortest paths until there is enough, or no path. Then the nodes that the last
    /// search reached are the side.
    fn solve(net: &Network, limit: Amount, wanted: Amount, flow: &mut [u32; 256]) -> Answer
        ensures shown { Shown net.now.nodes limit.value wanted.value (arcs_of net.now) flow.new result }
        ensures least { elim result [ Reached ↦ Unit {0} | Short side ↦ Innermost net.now.nodes limit.value (arcs_of net.now) flow.new (inside side.bits) ] }
        ensures rest { ZeroAfter (arcs_of net.now) flow.new }
    {
        let limited = LimitedNet { net, limit };
        *flow = [0; 256];
        let mut missing = wanted.value();
        while missing > 0 {
            let search = Search::run(limited, flow, missing, Goal::Sink);
            if !search.found() {
                return Answer::Short {
                    side: search.reached,
                };
            }
            missing -= search.augment(limited, flow);
        }
        Answer::Reached
    }
}

/// An engine that sends along shortest paths.
pub type PathEngine = CountingEngine<ShortestPaths>;
