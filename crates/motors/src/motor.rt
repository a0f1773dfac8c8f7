//! One axis.
ghost use Rattle.std.specs.Prelude.{◌≡◌};
ghost use Rattle.motors.specs.Motors.{resting};

use crate::ranged::Ranged;

/// Where an axis stands, where it is bound, and what its rule keeps beside.
#[derive(Clone, Copy)]
pub struct Motor<A> {
    pub position: Ranged,
    pub target: Ranged,
    pub own: A,
}

impl<A> Motor<A> {
    pub fn still(position: Ranged, own: A) -> Motor<A>
        ensures { result ≡ resting position own }
    {
        Motor {
            position,
            target: position,
            own,
        }
    }
}
