//! The reporting drive: a reading tells where an axis stands, and its health bit whether it is up.
ghost use Rattle.std.specs.Prelude.{◌≡◌};
ghost use Rattle.drives.specs.Reporting.{reported, reporting_from};
ghost use Rattle.drives.specs.Paces.{reported_lawful};

use crate::banked::Banked;
use drive::axis::AXES;
use motors::bank::Bank;
use motors::motor::Motor;
use motors::ranged::Ranged;
use motors::rule::{Moves, Steady};
use std::array;

/// Whether an axis is down.
#[derive(Clone, Copy)]
pub struct Link {
    pub down: bool,
}

pub type Reporting = Banked<Link>;

impl Moves for Link {
    ghost rule = { reported };

    fn moved(motor: Motor<Link>, reading: i64, up: bool) -> Motor<Link>
        ensures { result ≡ reported.moved motor reading up }
    {
        let here = motor.position.value;
        let there = motor.target.value;
        if up && here.min(there) <= reading && reading <= here.max(there) {
            Motor {
                position: Ranged::near(reading),
                target: motor.target,
                own: Link { down: false },
            }
        } else {
            Motor {
                own: Link { down: true },
                ..motor
            }
        }
    }
}

impl Steady for Link {
    ghost lawful = { reported_lawful };

    fn is_down(self) -> bool {
        self.down
    }
}

impl Reporting {
    /// Still at the starts, every axis up.
    pub fn new(starts: &[i64; AXES]) -> Reporting
        ensures { result.bank ≡ reporting_from starts.now }
    {
        let motors = starts.map(|start| Motor::still(Ranged::near(start), Link { down: false }));
        Banked {
            bank: Bank::new(motors),
        }
    }
}
