//! A bank of motors, whatever their rule; and a drive, where the rule keeps the laws.
ghost use Rattle.std.specs.Prelude.{◌≡◌, length};
ghost use Rattle.drive.specs.Axes.{axes};

use crate::motor::Motor;
use crate::ranged::Ranged;
use crate::rule::{Moves, Steady};
use drive::axis::{AXES, Axis};
use drive::health::Health;
use drive::motion::{Decline, Drive};
use drive::range::{BOTTOM, TOP};

/// A motor for each axis.
#[derive(Drop)]
pub struct Bank<A> {
    pub motors: [Motor<A>; AXES],
    ghost full: { length motors ≡ axes },
}

impl<A: Copy> Bank<A> {
    ghost use Rattle.std.specs.Prelude.{◌≡◌};

    /// A bank of these motors.
    pub fn new(motors: [Motor<A>; AXES]) -> Bank<A>
        ensures { result.motors ≡ motors }
    {
        Bank { motors }
    }
}

impl<A: Moves> Bank<A> {
    ghost use Rattle.std.specs.Prelude.{◌≡◌};
    ghost use Rattle.drive.specs.Axes.{index};
    ghost use Rattle.drive.specs.Range.{InRange};
    ghost use Rattle.motors.specs.Banks.{banked};

    pub fn position(&self, axis: Axis) -> i64
        ensures value { result ≡ (banked A.Moves.rule).position self.now (index axis) }
        ensures range { InRange result }
    {
        self.motors[axis.index()].position.value
    }

    pub fn target(&self, axis: Axis) -> i64
        ensures value { result ≡ (banked A.Moves.rule).target self.now (index axis) }
        ensures range { InRange result }
    {
        self.motors[axis.index()].target.value
    }

    /// Binds the axis for a target, or for the end of the range that it lies beyond, whether the axis is down or not.
    pub fn begin(&mut self, axis: Axis, target: i64)
        ensures { self.new ≡ (banked A.Moves.rule).begun self.old (index axis) target }
    {
        self.motors[axis.index()].target = Ranged::near(target);
    }

    pub fn halt(&mut self, axis: Axis)
        ensures { self.new ≡ (banked A.Moves.rule).halted self.old (index axis) }
    {
        let motor = &mut self.motors[axis.index()];
        motor.target = motor.position;
    }

    pub fn advance(&mut self, readings: &[i64], health: Health)
        ensures { self.new ≡ (banked A.Moves.rule).advanced self.old readings.now health }
    {
        for axis in Axis::ALL {
            let motor = &mut self.motors[axis.index()];
            *motor = A::moved(*motor, axis.reading(readings), health.is_up(axis));
        }
    }
}

impl<A: Steady> Bank<A> {
    ghost use Rattle.std.specs.Prelude.{◌≡◌};
    ghost use Rattle.drive.specs.Axes.{index};
    ghost use Rattle.motors.specs.Banks.{banked};

    pub fn is_down(&self, axis: Axis) -> bool
        ensures { result ≡ (banked A.Moves.rule).down self.now (index axis) }
    {
        self.motors[axis.index()].own.is_down()
    }
}

/// What a bank has by a method of its own, it does as a drive by that method.
impl<A: Steady> Drive for Bank<A> {
    ghost use Rattle.motors.specs.Banks.{banked};
    ghost use Rattle.motors.specs.Laws.{banked_keeps};

    ghost State = { Self };

    ghost state = { λ bank. bank };

    ghost ops = { banked A.Moves.rule };

    ghost keeps = { banked_keeps A.Moves.rule A.Steady.lawful };

    fn position(&self, axis: Axis) -> i64 {
        self.position(axis)
    }

    fn target(&self, axis: Axis) -> i64 {
        self.target(axis)
    }

    fn least(&self, _axis: Axis) -> i64 {
        BOTTOM
    }

    fn greatest(&self, _axis: Axis) -> i64 {
        TOP
    }

    fn is_down(&self, axis: Axis) -> bool {
        self.is_down(axis)
    }

    fn begin(&mut self, axis: Axis, target: i64) -> Result<(), Decline> {
        self.admits(axis, target)?;
        self.begin(axis, target);
        Ok(())
    }

    fn halt(&mut self, axis: Axis) {
        self.halt(axis);
    }

    fn advance(&mut self, readings: &[i64], health: Health) {
        self.advance(readings, health);
    }
}
