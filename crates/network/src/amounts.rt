// Limits and wanted sizes.
ghost use Rattle.std.specs.Prelude.{◌≡◌, ◌<◌, ◌≤◌, MatchResult};
ghost use Rattle.network.specs.declared.faults.NetworkFault.TheVariants.{TooLarge};

use crate::faults::NetworkFault;

/// The largest amount.
pub(crate) const MOST: u32 = 2_000_000;

/// A limit or a wanted size: 0 to 2,000,000.
#[derive(Clone, Copy)]
pub struct Amount {
    value: u32,
    ghost small: { value ≤ 2000000 },
}

impl Amount {
    /// The least amount.
    pub const ZERO: Amount = Amount { value: 0 };

    /// The amount as a number.
    pub fn value(self) -> u32
        ensures { result ≡ self.value }
    {
        self.value
    }
}

/// The amount of this value, or a refusal where it is too large.
impl TryFrom<u32> for Amount {
    type Error = NetworkFault;

    ghost try_from_gives = { λ value r. MatchResult r (λ a. a.value ≡ value) (λ e. (e ≡ TooLarge) × (2000000 < value)) };

    fn try_from(value: u32) -> Result<Amount, NetworkFault> {
        if value > MOST {
            return Err(NetworkFault::TooLarge);
        }
        Ok(Amount { value })
    }
}
