// What can be asked of a waiting line.
ghost use Rattle.std.specs.Prelude.{◌≡◌, ◌<◌, [], length, MatchBool};
ghost use Rattle.line.specs.Waiting.{waiting, capacity, is_named, SomeNames};

use super::Line;
use crate::NamesNode;

impl<T: Copy> Line<'_, T> {
    /// How many elements wait.
    pub fn len(&self) -> usize
        ensures { result ≡ length (waiting self.now) }
    {
        self.count
    }

    /// How many elements can wait: the number of places.
    pub fn capacity(&self) -> usize
        ensures { result ≡ capacity self.now }
    {
        self.places.len()
    }

    /// Whether nothing waits.
    pub fn is_empty(&self) -> bool
        ensures { MatchBool result (waiting self.now ≡ []) (0 < length (waiting self.now)) }
    {
        self.len() == 0
    }

    /// Whether every place is taken.
    pub fn is_full(&self) -> bool
        ensures { MatchBool result (length (waiting self.now) ≡ capacity self.now)
            (length (waiting self.now) < capacity self.now) }
    {
        self.len() == self.capacity()
    }
}

impl<T: Copy + NamesNode> Line<'_, T> {
    /// Whether an element that names `node` waits.
    pub fn is_waiting(&self, node: u8) -> bool
        ensures is { result ≡ is_named T.NamesNode.node node (waiting self.now) }
        ensures means { MatchBool result (SomeNames T.NamesNode.node node (waiting self.now))
            (SomeNames T.NamesNode.node node (waiting self.now) → ⊥) }
    {
        let (after, first) = self.places.split_at(self.head);
        first
            .iter()
            .chain(after.iter())
            .take(self.count)
            .any(|x| x.node() == node)
    }
}
