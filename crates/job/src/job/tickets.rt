// What a ticket says.
ghost use Rattle.std.specs.Prelude.{◌≡◌};

use super::Ticket;

impl Ticket {
    /// The number of the job that the nozzle was taken out of.
    pub fn job(&self) -> u32
        ensures { result ≡ self.now.job }
    {
        self.job
    }

    /// The number of the nozzle.
    pub fn nozzle(&self) -> u8
        ensures { result ≡ self.now.nozzle }
    {
        self.nozzle
    }
}
