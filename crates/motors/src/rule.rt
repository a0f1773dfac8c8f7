//! A rule by which one axis moves: it knows of no other axis, and not how many there are.
ghost use Rattle.std.specs.Prelude.{◌≡◌};
ghost use Rattle.motors.specs.Rules.{Rule, Lawful};

use crate::motor::Motor;

pub trait Moves: Copy {
    ghost rule: { Rule Self };

    /// The motor after one advance, by its reading and whether its health bit is 1.
    fn moved(motor: Motor<Self>, reading: i64, up: bool) -> Motor<Self>
        ensures { result ≡ rule.moved motor reading up };
}

/// A rule that keeps the laws, so that a drive can move by it.
pub trait Steady: Moves {
    fn is_down(self) -> bool
        ensures { result ≡ Self.rule.down self };

    ghost lawful: { Lawful Self.rule };
}
