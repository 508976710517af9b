// What names a node of a network.
ghost use Rattle.std.specs.Prelude.{◌≡◌, ℕ};

/// An element that names a node of the network.
pub trait NamesNode {
    ghost node: { Self → ℕ };

    /// The node that the element names.
    fn node(&self) -> u8
        ensures { result ≡ node self.now };
}

/// A node, and the arc that led to it. Both are numbered from 0.
#[derive(Clone, Copy, Debug, PartialEq, Eq)]
pub struct Visit {
    pub node: u8,
    pub arc: u8,
}

impl NamesNode for Visit {
    ghost node = { λ v. v.node };

    fn node(&self) -> u8 {
        self.node
    }
}

/// A bare node number names itself.
impl NamesNode for u8 {
    ghost node = { λ n. n };

    fn node(&self) -> u8 {
        *self
    }
}
