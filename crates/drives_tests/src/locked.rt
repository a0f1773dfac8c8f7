//! A drive that is always down: it keeps the laws, and no target is ever begun on it.
ghost use Rattle.drives_tests.specs.Locked.{locked};
ghost use Rattle.std.proofs.Common.{rules};

use drive::axis::Axis;
use drive::health::Health;
use drive::motion::{Decline, Drive};

#[derive(Drop)]
pub struct Locked;

impl Drive for Locked {
    ghost State = { Self };

    ghost state = { λ d. d };

    ghost ops = { locked };

    ghost keeps = { Prim.search rules };

    fn position(&self, _axis: Axis) -> i64 {
        0
    }

    fn target(&self, _axis: Axis) -> i64 {
        0
    }

    fn least(&self, _axis: Axis) -> i64 {
        0
    }

    fn greatest(&self, _axis: Axis) -> i64 {
        0
    }

    fn is_down(&self, _axis: Axis) -> bool {
        true
    }

    fn begin(&mut self, axis: Axis, target: i64) -> Result<(), Decline> {
        self.admits(axis, target)
    }

    fn halt(&mut self, _axis: Axis) {}

    fn advance(&mut self, _readings: &[i64], _health: Health) {}
}
