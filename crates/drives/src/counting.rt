//! The counting drive: each axis moves by its rate, or by the distance left where that is less, and is never down.
ghost use Rattle.std.specs.Prelude.{◌≡◌};
ghost use Rattle.drives.specs.Counting.{rate_near, counted, counting_from};
ghost use Rattle.motors.specs.Motors.{near, resting};
ghost use Rattle.drives.specs.Paces.{counted_lawful};

use crate::banked::Banked;
use crate::up_to::UpTo;
use drive::axis::AXES;
use motors::bank::Bank;
use motors::motor::Motor;
use motors::ranged::Ranged;
use motors::rule::{Moves, Steady};
use std::array;

/// How far an axis moves in one advance.
pub type Rate = UpTo<1_000_000>;

pub type Counting = Banked<Rate>;

impl Moves for Rate {
    ghost rule = { counted };

    fn moved(motor: Motor<Rate>, reading: i64, up: bool) -> Motor<Rate>
        ensures { result ≡ counted.moved motor reading up }
    {
        let here = motor.position.value;
        let rate = motor.own.value;
        let next = motor.target.value.clamp(here - rate, here + rate);
        Motor {
            position: Ranged::near(next),
            ..motor
        }
    }
}

impl Steady for Rate {
    ghost lawful = { counted_lawful };

    fn is_down(self) -> bool {
        false
    }
}

/// An axis still at its start, with its rate.
fn still(rate: i64, start: i64) -> Motor<Rate>
    ensures { result ≡ resting (near start) (rate_near rate) }
{
    Motor::still(Ranged::near(start), Rate::near(rate))
}

impl Counting {
    /// Still at the starts, each axis with its rate.
    pub fn new(rates: &[i64; AXES], starts: &[i64; AXES]) -> Counting
        ensures { result.bank ≡ counting_from rates.now starts.now }
    {
        Banked {
            bank: Bank::new(array::from_fn(|i| still(rates[i], starts[i]))),
        }
    }
}
