//! Drives whose axes are all alike.
ghost use Rattle.std.specs.Prelude.{◌≡◌, replicate};
ghost use Rattle.drive.specs.Axes.{axes};
ghost use Rattle.drives.specs.Counting.{counting_from};
ghost use Rattle.drives.specs.Reporting.{reporting_from};

use drive::axis::AXES;
use drives::counting::Counting;
use drives::reporting::Reporting;

/// The value for each axis.
#[tactic(auto, unfolding(drive::specs::Axes::axes))]
pub(crate) fn each_axis(value: i64) -> [i64; AXES]
    ensures { result ≡ replicate axes value }
{
    [value; AXES]
}

/// A counting drive, with the same rate and the same start on every axis.
pub fn counting(rate: i64, start: i64) -> Counting
    ensures { result.bank ≡ counting_from (replicate axes rate) (replicate axes start) }
{
    Counting::new(&each_axis(rate), &each_axis(start))
}

/// A reporting drive, with the same start on every axis.
pub fn reporting(start: i64) -> Reporting
    ensures { result.bank ≡ reporting_from (replicate axes start) }
{
    Reporting::new(&each_axis(start))
}
