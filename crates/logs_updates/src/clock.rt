ghost use Rattle.std.specs.Prelude.{◌≡◌, IfOk};

use base_clocks::Stamps;
use base_core::NoMemory;
use std::alloc::Global;

/// The clock of a line: a number, or a number of each of several nodes.
#[derive(Drop)]
pub enum Clock {
    Number(i64),
    Vector(Stamps),
}

impl Clock {
    /// An equal clock.
    pub fn copy(&self, alloc: Global) -> Result<Clock, NoMemory>
        ensures { IfOk result (λ copy. copy ≡ self.now) }
    {
        match self {
            Clock::Number(number) => Ok(Clock::Number(*number)),
            Clock::Vector(stamps) => {
                let copy = stamps.copy(alloc)?;
                Ok(Clock::Vector(copy))
            }
        }
    }
}
