//! A drive of a bank of motors, by any rule that keeps the laws.
ghost use Rattle.motors.specs.Banks.{banked};
ghost use Rattle.motors.specs.Laws.{banked_keeps};
ghost use Rattle.motors.specs.declared.bank.Bank.{Bank};

use drive::axis::Axis;
use drive::health::Health;
use drive::motion::{Decline, Drive};
use drive::range::{BOTTOM, TOP};
use motors::bank::Bank;
use motors::rule::Steady;

/// Its bank is the crate's alone, so it starts as its maker says, and moves by the methods of `Drive` alone.
#[derive(Drop)]
pub struct Banked<A> {
    pub(crate) bank: Bank<A>,
}

impl<A: Steady> Drive for Banked<A> {
    ghost State = { Bank A };

    ghost state = { λ d. d.bank };

    ghost ops = { banked A.Moves.rule };

    ghost keeps = { banked_keeps A.Moves.rule A.Steady.lawful };

    fn position(&self, axis: Axis) -> i64 {
        self.bank.position(axis)
    }

    fn target(&self, axis: Axis) -> i64 {
        self.bank.target(axis)
    }

    fn least(&self, _axis: Axis) -> i64 {
        BOTTOM
    }

    fn greatest(&self, _axis: Axis) -> i64 {
        TOP
    }

    fn is_down(&self, axis: Axis) -> bool {
        self.bank.is_down(axis)
    }

    fn begin(&mut self, axis: Axis, target: i64) -> Result<(), Decline> {
        self.admits(axis, target)?;
        self.bank.begin(axis, target);
        Ok(())
    }

    fn halt(&mut self, axis: Axis) {
        self.bank.halt(axis);
    }

    fn advance(&mut self, readings: &[i64], health: Health) {
        self.bank.advance(readings, health);
    }
}
