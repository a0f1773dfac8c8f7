//! What survives arming and parking.
ghost use Rattle.std.specs.Prelude.{◌≡◌, replicate, None};
ghost use Rattle.drive.specs.declared.axis.Axis.TheVariants as Axes;
ghost use Rattle.drive.specs.Axes.{axes};
ghost use Rattle.model.specs.Controller.{units_set};
ghost use Rattle.controller.specs.Setups.{selecting, FactorsBounded};

use command::request::Settings;
use drive::axis::{AXES, Axis};
use std::marker::Model;
use text::Decimal;

/// The settings of each axis, and Set's own axis.
#[derive(Drop)]
pub(crate) struct Setup {
    settings: [Settings; AXES],
    axis: Axis,
}

impl Model for Setup {
    ghost use Rattle.model.specs.Controller as C;
    ghost use Rattle.controller.specs.Setups.{FactorsBounded};

    ghost Value = { C.Setup };

    ghost view = { λ u. record { settings = u.settings; axis = u.axis } };

    ghost invariant = { λ u. FactorsBounded u.settings };
}

impl Setup {
    /// All units off, and Set at X.
    pub(crate) fn new() -> Setup
        ensures is { result ≡ record { settings = replicate axes (record { units = None }); axis = Axes.X } }
        ensures bounded { FactorsBounded result.settings }
    {
        Setup {
            settings: [Settings { units: None }; AXES],
            axis: Axis::X,
        }
    }

    pub(crate) fn axis(&self) -> Axis
        ensures { result ≡ self.now.axis }
    {
        self.axis
    }

    pub(crate) fn settings(&self) -> &[Settings]
        ensures { result.now ≡ self.now.settings }
    {
        &self.settings
    }

    pub(crate) fn select(&mut self, axis: Axis)
        ensures does { self.new ≡ selecting self.old axis }
        ensures bounded { FactorsBounded self.new.settings }
    {
        self.axis = axis;
    }

    /// Units on with the factor, or off, on Set's axis.
    pub(crate) fn set_units(&mut self, units: Option<Decimal>)
        ensures does { self.new ≡ units_set self.old units }
        ensures bounded { FactorsBounded self.new.settings }
    {
        self.settings[self.axis.index()] = Settings { units };
    }
}
