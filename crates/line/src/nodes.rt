// A waiting line with a place for each node.
ghost use Rattle.std.specs.Prelude.{◌≡◌, ◌<◌, ◌↔◌, [], ◌∷◌, ◌++◌, length, IsOk, OnOk, OnErr, MatchOption};

use crate::line::{Full, Line};
use std::marker::Model;

/// A waiting line with a place for each of the 64 nodes that a network can have.
#[derive(Drop)]
pub struct NodeLine<'a, T> {
    line: Line<'a, T>,
}

// Clauses see the elements that wait, oldest first.
impl<'a, T> Model for NodeLine<'a, T> {
    ghost use Rattle.std.specs.Prelude.{List, ◌≡◌};
    ghost use Rattle.line.specs.Waiting.{waiting, capacity};

    ghost Value = { List T };

    ghost view = { λ l. waiting l.line };

    ghost invariant = { λ l. capacity l.line ≡ 64 };
}

impl<'a, T: Copy> NodeLine<'a, T> {
    /// An empty line, whose elements will stand in `places`.
    pub fn new(places: &'a mut [T; 64]) -> NodeLine<'a, T>
        ensures { result ≡ [] }
    {
        NodeLine {
            line: Line::new(places),
        }
    }

    /// Puts `x` at the end of the line. Refused exactly if 64 elements wait.
    pub fn push(&mut self, x: T) -> Result<(), Full>
        ensures room { IsOk result ↔ (length self.old < 64) }
        ensures joined { OnOk result (self.new ≡ self.old ++ x ∷ []) }
        ensures full { OnErr result (self.new ≡ self.old) }
    {
        self.line.push(x)
    }

    /// Takes the element that has waited longest. There is none exactly if nothing waits.
    pub fn pop(&mut self) -> Option<T>
        ensures { MatchOption result ((self.old ≡ []) × (self.new ≡ [])) (λ x. self.old ≡ x ∷ self.new) }
    {
        self.line.pop()
    }
}
