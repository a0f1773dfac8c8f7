//! The ratio drive: it counts in whole multiples of the steps of the drive below it.
ghost use Rattle.std.specs.Prelude.{◌≡◌, int_div};
ghost use Rattle.drive.specs.Range.{InRange};
ghost use Rattle.drives.specs.Ratio.{Geared, geared, over, floored, ceiled};
ghost use Rattle.drives.specs.Gears.{geared_keeps};

use crate::up_to::UpTo;
use drive::axis::Axis;
use drive::health::Health;
use drive::motion::{Decline, Drive};

/// How many steps of the drive below make one count.
pub type Steps = UpTo<1000>;

impl Steps {
    /// So many steps in counts: toward zero, down and up.
    fn truncated(self, steps: i64) -> i64
        requires { InRange steps }
        ensures value { result ≡ int_div steps self.value }
        ensures range { InRange result }
    {
        steps / self.value
    }

    fn floored(self, steps: i64) -> i64
        requires { InRange steps }
        ensures value { result ≡ floored steps self.value }
        ensures range { InRange result }
    {
        steps.div_euclid(self.value)
    }

    fn ceiled(self, steps: i64) -> i64
        requires { InRange steps }
        ensures value { result ≡ ceiled steps self.value }
        ensures range { InRange result }
    {
        -self.floored(-steps)
    }
}

#[derive(Drop)]
pub struct Ratio<D: Drive> {
    below: D,
    steps: Steps,
}

impl<D: Drive> Ratio<D> {
    /// So many steps of the drive below to one count.
    pub fn new(below: D, steps: i64) -> Ratio<D>
        ensures { result ≡ over below steps }
    {
        Ratio {
            below,
            steps: Steps::near(steps),
        }
    }
}

impl<D: Drive> Drive for Ratio<D> {
    ghost State = { Geared D.Drive.State };

    ghost state = { λ d. record { below = D.Drive.state d.below; steps = d.steps } };

    ghost ops = { geared D.Drive.ops };

    ghost keeps = { geared_keeps D.Drive.keeps };

    fn position(&self, axis: Axis) -> i64 {
        self.steps.truncated(self.below.position(axis))
    }

    fn target(&self, axis: Axis) -> i64 {
        self.steps.truncated(self.below.target(axis))
    }

    fn least(&self, axis: Axis) -> i64 {
        self.steps.ceiled(self.below.least(axis))
    }

    fn greatest(&self, axis: Axis) -> i64 {
        self.steps.floored(self.below.greatest(axis))
    }

    fn is_down(&self, axis: Axis) -> bool {
        self.below.is_down(axis)
    }

    fn begin(&mut self, axis: Axis, target: i64) -> Result<(), Decline> {
        self.admits(axis, target)?;
        self.below.begin(axis, target * self.steps.value)
    }

    fn halt(&mut self, axis: Axis) {
        self.below.halt(axis);
    }

    fn advance(&mut self, readings: &[i64], health: Health) {
        self.below.advance(readings, health);
    }
}
