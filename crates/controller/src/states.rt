//! A controller's two states. Arming turns a parked controller into a live one, and parking turns it back.
//! By a rule of the project they are two types, and neither is copied: each of these calls uses up what it turns.
ghost use Rattle.std.specs.Prelude.{◌≤◌, length};
ghost use Rattle.controller.specs.Setups.{FactorsBounded};

use crate::setup::Setup;
use answers::ErrorRecord;
use command::request::Selection;
use drive::axis::{AXES, Axis};
use parts::Machine;

/// Takes settings, and waits to be armed.
// No `impl Model`: its `Value` would hold the drive's State, a ghost member of a bound, which a `Value` cannot name.
#[derive(Drop)]
pub struct Parked<D> {
    pub(crate) machine: Machine<D>,
    pub(crate) setup: Setup,
    /// How many entries of each axis the last park dropped.
    pub(crate) dropped: [usize; AXES],
    pub ghost bounded: { FactorsBounded setup.settings },
}

/// Takes commands, samples and steps.
#[derive(Drop)]
pub struct Live<D> {
    pub(crate) machine: Machine<D>,
    pub(crate) setup: Setup,
    /// Port M's selection.
    pub(crate) selection: Selection,
    /// The axis of port P's last accepted command.
    pub(crate) last: Axis,
    /// The latest sample.
    pub(crate) sampled: u16,
    pub(crate) errors: ErrorRecord,
    pub ghost bounded: { FactorsBounded setup.settings },
    pub ghost few_bytes: { length errors ≤ 160 },
}
