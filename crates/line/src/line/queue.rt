// Joining a waiting line, and leaving it.
ghost use Rattle.std.specs.Prelude.{◌≡◌, ◌<◌, ◌≤◌, [], ◌∷◌, ◌++◌, length, MatchOption, MatchResult};
ghost use Rattle.line.specs.Waiting.{waiting, capacity, place};

use super::{Full, Line};

impl<'a, T: Copy> Line<'a, T> {
    /// An empty line, whose elements will stand in `places`.
    pub fn new(places: &'a mut [T]) -> Line<'a, T>
        ensures empty { waiting result ≡ [] }
        ensures room { capacity result ≡ length places.old }
    {
        Line {
            places,
            head: 0,
            count: 0,
        }
    }

    /// Puts `x` at the end of the line. Refused exactly if every place is taken.
    pub fn push(&mut self, x: T) -> Result<(), Full>
        ensures room { capacity self.new ≡ capacity self.old }
        ensures full { MatchResult result (λ _. length (waiting self.old) < capacity self.old)
            (λ _. length (waiting self.old) ≡ capacity self.old) }
        ensures queued { MatchResult result (λ _. waiting self.new ≡ waiting self.old ++ x ∷ [])
            (λ _. waiting self.new ≡ waiting self.old) }
    {
        if self.is_full() {
            return Err(Full);
        }
        let free = self.place(self.len());
        self.places[free] = x;
        self.count += 1;
        Ok(())
    }

    /// Takes the element that has waited longest. There is none exactly if nothing waits.
    pub fn pop(&mut self) -> Option<T>
        ensures room { capacity self.new ≡ capacity self.old }
        ensures first { MatchOption result ((waiting self.old ≡ []) × (waiting self.new ≡ []))
            (λ x. waiting self.old ≡ x ∷ waiting self.new) }
    {
        if self.is_empty() {
            return None;
        }
        let first = self.places[self.head];
        self.head = self.place(1);
        self.count -= 1;
        Some(first)
    }

    // The place `k` steps on from the head, at most once round.
    pub(super) fn place(&self, k: usize) -> usize
        requires some { 0 < capacity self.now }
        requires once { k ≤ capacity self.now }
        ensures inside { result < capacity self.now }
        ensures is { result ≡ place self.now.head (capacity self.now) k }
    {
        let before_end = self.places.len() - self.head;
        if k < before_end {
            self.head + k
        } else {
            k - before_end
        }
    }
}
