//! Which axes are healthy, as one word.
ghost use Rattle.std.specs.Prelude.{◌≡◌};
ghost use Rattle.drive.specs.Axes.{index};
ghost use Rattle.drive.specs.Health.{is_up};

use crate::axis::Axis;

/// Bit 0 is the first axis's, and 1 says that it is up.
#[derive(Clone, Copy)]
pub struct Health {
    pub bits: u8,
}

impl Health {
    pub fn is_up(self, axis: Axis) -> bool
        ensures { result ≡ is_up self (index axis) }
    {
        (self.bits >> axis.index()) & 1 == 1
    }
}
