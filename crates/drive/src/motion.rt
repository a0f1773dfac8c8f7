//! What a drive means.
ghost use Rattle.std.specs.Prelude.{◌≡◌};
ghost use Rattle.drive.specs.Axes.{index};
ghost use Rattle.drive.specs.Range.{InRange};
ghost use Rattle.drive.specs.Drive.{Ops, still, reply, tried, all_halted};
ghost use Rattle.drive.specs.Laws.{Keeps, Stopped};

use crate::axis::Axis;
use crate::health::Health;

/// Why a target is not begun.
#[derive(Clone, Copy, PartialEq, Eq)]
pub enum Decline {
    Down,
    Reach,
}

pub trait Drive {
    ghost State: { Type 0 };

    ghost state: { Self → State };

    /// What is told of a state, and what becomes of it.
    ghost ops: { Ops State };

    fn position(&self, axis: Axis) -> i64
        ensures value { result ≡ ops.position (state self.now) (index axis) }
        ensures range { InRange result };

    fn target(&self, axis: Axis) -> i64
        ensures value { result ≡ ops.target (state self.now) (index axis) }
        ensures range { InRange result };

    fn least(&self, axis: Axis) -> i64
        ensures value { result ≡ ops.least (state self.now) (index axis) }
        ensures range { InRange result };

    fn greatest(&self, axis: Axis) -> i64
        ensures value { result ≡ ops.greatest (state self.now) (index axis) }
        ensures range { InRange result };

    fn is_down(&self, axis: Axis) -> bool
        ensures { result ≡ ops.down (state self.now) (index axis) };

    fn is_still(&self, axis: Axis) -> bool
        ensures { result ≡ still ops (state self.now) (index axis) }
    {
        self.position(axis) == self.target(axis)
    }

    /// What `begin` answers: an axis that is down declines first, then one that does not reach the target.
    fn admits(&self, axis: Axis, target: i64) -> Result<(), Decline>
        ensures { result ≡ reply ops (state self.now) (index axis) target }
    {
        if self.is_down(axis) {
            return Err(Decline::Down);
        }
        if target < self.least(axis) || target > self.greatest(axis) {
            return Err(Decline::Reach);
        }
        Ok(())
    }

    fn begin(&mut self, axis: Axis, target: i64) -> Result<(), Decline>
        ensures answer { result ≡ reply ops (state self.old) (index axis) target }
        ensures after { state self.new ≡ tried ops (state self.old) (index axis) target };

    fn halt(&mut self, axis: Axis)
        ensures { state self.new ≡ ops.halted (state self.old) (index axis) };

    fn advance(&mut self, readings: &[i64], health: Health)
        ensures { state self.new ≡ ops.advanced (state self.old) readings.now health };

    ghost keeps: { Keeps ops };
}

/// Halts every axis, in order.
pub fn halt_all<D: Drive>(drive: &mut D)
    ensures after { D.Drive.state drive.new ≡ all_halted D.Drive.ops (D.Drive.state drive.old) }
    ensures stops { Stopped D.Drive.ops (D.Drive.state drive.old) (D.Drive.state drive.new) }
{
    for axis in Axis::ALL {
        drive.halt(axis);
    }
}
