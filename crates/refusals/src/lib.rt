// What every layer's refusal says.
#![tactic(auto)]

ghost use Rattle.std.specs.Prelude.{◌≡◌, ℕ};

/// A refusal: its number, the layer that refuses, and where.
pub trait Refusal {
    ghost number: { Self → ℕ };

    ghost layer: { Self → ℕ };

    ghost place: { Self → ℕ };

    /// The refusal's number.
    fn number(&self) -> u8
        ensures { result ≡ number self.now };

    /// The layer that refuses.
    fn layer(&self) -> u8
        ensures { result ≡ layer self.now };

    /// Where: what stands there depends on the number.
    fn place(&self) -> usize
        ensures { result ≡ place self.now };
}
