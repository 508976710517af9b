// The piece that a nozzle takes in a subtour, found as pieces come to it.
ghost use Rattle.std.specs.Prelude.{◌≡◌, ◌-◌, ◌&&◌, if◌then◌else◌, nat_le, nat_lt};

/// How many pieces a nozzle lacks up to the one that it takes in the subtour, and the number of
/// that one's type: 0 until it came.
#[derive(Clone, Copy)]
pub(crate) struct Pick {
    pub left: u64,
    pub piece: u8,
}

impl Pick {
    /// Counts so many pieces of a type, which come to the nozzle next.
    pub(crate) fn count(&mut self, pieces: u32, kind: u8)
        ensures left { self.new.left ≡ self.old.left - pieces }
        ensures piece { self.new.piece ≡ (if nat_lt 0 self.old.left && nat_le self.old.left pieces then kind else self.old.piece) }
    {
        let pieces = u64::from(pieces);
        if (1..=pieces).contains(&self.left) {
            self.piece = kind;
        }
        self.left = self.left.saturating_sub(pieces);
    }
}
