// Either of the two flow engines, chosen while the program runs.
#![tactic(auto)]

ghost use Rattle.std.specs.Prelude.{Some, codes};
ghost use Rattle.engines.specs.Counts.{count_of};
ghost use Rattle.engines.specs.Names.{Names};

use network::{Amount, Answer, Engine, Network};
use path_engine::PathEngine;
use push_engine::PushEngine;
use std::error::Error;
use std::fmt;
use std::str::FromStr;

/// An engine of either kind.
#[derive(Drop)]
pub enum AnyEngine {
    Path(PathEngine),
    Push(PushEngine),
}

impl Engine for AnyEngine {
    ghost count = { count_of };

    fn count(&self) -> u32 {
        match self {
            AnyEngine::Path(engine) => engine.count(),
            AnyEngine::Push(engine) => engine.count(),
        }
    }

    fn run(
        &mut self,
        net: &Network,
        limit: Amount,
        wanted: Amount,
        flow: &mut [u32; 256],
    ) -> Answer {
        match self {
            AnyEngine::Path(engine) => engine.run(net, limit, wanted, flow),
            AnyEngine::Push(engine) => engine.run(net, limit, wanted, flow),
        }
    }
}

/// The refusal of a text that names no engine.
#[derive(Clone, Copy, PartialEq, Eq, Debug)]
pub struct NoEngine;

impl fmt::Display for NoEngine {
    ghost output = { λ _. Some (codes "the engine is path or push") };

    fn fmt<W: fmt::Write>(&self, f: &mut fmt::Formatter<W>) -> fmt::Result {
        write!(f, "the engine is path or push")
    }
}

impl Error for NoEngine {}

/// The engine that a text names, `path` or `push`, as one that has made no run.
impl FromStr for AnyEngine {
    type Err = NoEngine;

    ghost from_str_gives = { Names };

    fn from_str(name: &str) -> Result<AnyEngine, NoEngine> {
        match name {
            "path" => Ok(AnyEngine::Path(PathEngine::new())),
            "push" => Ok(AnyEngine::Push(PushEngine::new())),
            _ => Err(NoEngine),
        }
    }
}
