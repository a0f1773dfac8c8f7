//! What a live controller shows.
ghost use Rattle.std.specs.Prelude.{◌≡◌};
ghost use Rattle.drive.specs.Axes.{each};
ghost use Rattle.listing.specs.Writing.{Adds};
ghost use Rattle.controller.specs.Views.{live_view};
ghost use Rattle.session.specs.Shows.{course, shown_live};

use controller::Live;
use drive::axis::{AXES, Axis};
use drive::motion::Drive;
use listing::{Course, print_show};
use std::alloc::AllocError;

/// Where the axes are, and where they are going.
fn courses<D: Drive>(live: &Live<D>) -> [Course; AXES]
    ensures { result ≡ each (course D.Drive.ops (live_view D.Drive.state live.now)) }
{
    Axis::ALL.map(|axis| Course {
        position: live.position(axis),
        target: live.target(axis),
    })
}

/// Prints the output word, then each axis's position and target.
#[tactic(auto, unfolding(drive::specs::Axes::axes, drive::specs::Axes::each))]
pub fn show<D: Drive>(live: &Live<D>, out: &mut Vec<u8>) -> Result<(), AllocError>
    ensures { Adds result out.old out.new (shown_live D.Drive.ops (live_view D.Drive.state live.now)) }
{
    print_show(out, live.output(), &courses(live))
}
