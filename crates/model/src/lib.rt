//! The defined controller, and the account of every run.
#![tactic(auto)]

ghost use Rattle.model.specs.Account.{Accounted};
ghost use Rattle.model.specs.Faults.{Caught, Right};
ghost use Rattle.model.specs.Stances.{Alone, Decided};

use drive::motion::Drive;

pub mod refusal;
pub mod row;

/// Over any drive, every run of calls on a new controller keeps the account.
pub fn runs_keep_the_account<D: Drive>()
    ensures { (s : D.Drive.State) → Accounted D.Drive.ops s }
{}

/// What a step does to an axis is decided by the sampled word and by how that axis stands once the drive has advanced.
pub fn steps_take_each_axis_alone<D: Drive, E: Drive>()
    ensures alone { Alone D.Drive.ops }
    ensures decided { Decided D.Drive.ops E.Drive.ops }
{}

/// The account does not hold of the histories of faulty controllers.
pub fn the_account_catches_faults()
    ensures caught { Caught }
    ensures right { Right }
{}
