// What a flow engine is.
ghost use Rattle.std.specs.Prelude.{◌≡◌, ℕ, ◌+◌, ◌%◌, ◌^◌};
ghost use Rattle.network.specs.Nets.{arcs_of};
ghost use Rattle.network.specs.Runs.{Shown, ZeroAfter};

use crate::amounts::Amount;
use crate::nets::Network;
use crate::sides::Side;
use std::marker::PhantomData;

/// What a run answers.
#[derive(Clone, Copy)]
pub enum Answer {
    /// The list holds a flow of the wanted size.
    Reached,
    /// The list holds a smaller flow, just as large as the capacity of the side.
    Short { side: Side },
}

/// What looks for a flow of a wanted size under a limit, and counts its runs.
pub trait Engine {
    /// the number of runs so far, modulo 2^32
    ghost count: { Self → ℕ };

    /// How many runs were made, modulo 2^32.
    fn count(&self) -> u32
        ensures { result ≡ count self.now };

    /// Makes one run: writes a flow into the list, one number for each arc and 0 after the last.
    fn run(&mut self, net: &Network, limit: Amount, wanted: Amount, flow: &mut [u32; 256]) -> Answer
        ensures counted { count self.new ≡ (count self.old + 1) % 2 ^ 32 }
        ensures shown { Shown net.now.nodes limit.value wanted.value (arcs_of net.now) flow.new result }
        ensures rest { ZeroAfter (arcs_of net.now) flow.new };
}

/// How an engine finds the flow of a run.
pub trait Method {
    /// Writes a flow into the list, one number for each arc and 0 after the last.
    fn solve(net: &Network, limit: Amount, wanted: Amount, flow: &mut [u32; 256]) -> Answer
        ensures shown { Shown net.now.nodes limit.value wanted.value (arcs_of net.now) flow.new result }
        ensures rest { ZeroAfter (arcs_of net.now) flow.new };
}

/// An engine that finds its flows by a method, and the number of its runs.
#[derive(Drop)]
pub struct CountingEngine<M> {
    runs: u32,
    method: PhantomData<M>,
}

impl<M> CountingEngine<M> {
    /// An engine that has made no run.
    pub fn new() -> CountingEngine<M>
        ensures { result.runs ≡ 0 }
    {
        CountingEngine::with_count(0)
    }

    /// An engine whose count stands at this number.
    pub fn with_count(runs: u32) -> CountingEngine<M>
        ensures { result.runs ≡ runs }
    {
        CountingEngine {
            runs,
            method: PhantomData,
        }
    }
}

impl<M: Method> Engine for CountingEngine<M> {
    ghost count = { λ s. s.runs };

    fn count(&self) -> u32 {
        self.runs
    }

    fn run(
        &mut self,
        net: &Network,
        limit: Amount,
        wanted: Amount,
        flow: &mut [u32; 256],
    ) -> Answer {
        self.runs = self.runs.wrapping_add(1);
        M::solve(net, limit, wanted, flow)
    }
}
