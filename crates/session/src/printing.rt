//! The calls, each with what is printed of it.
// `live` and `out` stay two parameters: `park` takes `live` by value and `set` has none, so a struct of both would be built anew between calls.
ghost use Rattle.model.specs.Controller as C;
ghost use Rattle.controller.specs.Views.{parked_view, live_view, on_parked, on_live};
ghost use Rattle.session.specs.Prints.{Made};

use command::request::Port;
use controller::{Live, Parked};
use drive::health::Health;
use drive::motion::Drive;
use listing::{print_command, print_park, print_set, print_sheet};
use model::row::Row;
use std::alloc::AllocError;

/// Does what a text asks.
#[tactic(auto, using(crate::proofs::Making::command_made))]
pub fn command<D: Drive>(
    live: &mut Live<D>,
    port: Port,
    text: &[u8],
    sheet: &mut [Row],
    block: &mut [u8],
    out: &mut Vec<u8>,
) -> Result<(), AllocError>
    ensures { Made (on_live D.Drive.state D.Drive.ops live.old (C.command port text.now sheet.old block.old)) (C.live (live_view D.Drive.state live.new)) result out.old out.new }
{
    let reply = live.command(port, text, sheet, block);
    print_command(out, reply, sheet, block)
}

/// Takes a word of sampled contacts.
#[tactic(auto, using(crate::proofs::Making::sample_made))]
pub fn sample<D: Drive>(
    live: &mut Live<D>,
    word: u16,
    sheet: &mut [Row],
    out: &mut Vec<u8>,
) -> Result<(), AllocError>
    ensures { Made (on_live D.Drive.state D.Drive.ops live.old (C.sample word sheet.old)) (C.live (live_view D.Drive.state live.new)) result out.old out.new }
{
    let reply = live.sample(word, sheet);
    print_sheet(out, reply, sheet)
}

/// One step of time.
#[tactic(auto, using(crate::proofs::Making::step_made))]
pub fn step<D: Drive>(
    live: &mut Live<D>,
    readings: &[i64],
    health: Health,
    sheet: &mut [Row],
    out: &mut Vec<u8>,
) -> Result<(), AllocError>
    ensures { Made (on_live D.Drive.state D.Drive.ops live.old (C.step readings.now health sheet.old)) (C.live (live_view D.Drive.state live.new)) result out.old out.new }
{
    let reply = live.step(readings, health, sheet);
    print_sheet(out, reply, sheet)
}

/// Changes a setting; nothing is printed where it is taken.
#[tactic(auto, using(crate::proofs::Making::set_made))]
pub fn set<D: Drive>(
    parked: &mut Parked<D>,
    text: &[u8],
    out: &mut Vec<u8>,
) -> Result<(), AllocError>
    ensures { Made (on_parked D.Drive.state D.Drive.ops parked.old (C.set_call text.now)) (C.parked (parked_view D.Drive.state parked.new)) result out.old out.new }
{
    let reply = parked.set(text);
    print_set(out, reply)
}

/// Parks the controller, and tells what that dropped.
#[tactic(auto, using(crate::proofs::Making::park_made), unfolding(model::specs::Controller::call))]
pub fn park<D: Drive>(live: Live<D>, out: &mut Vec<u8>) -> (Parked<D>, Result<(), AllocError>)
    ensures { Made (on_live D.Drive.state D.Drive.ops live C.park) (C.parked (parked_view D.Drive.state result.0)) result.1 out.old out.new }
{
    let parked = live.park();
    let dropped = parked.dropped();
    let printed = print_park(out, &dropped);
    (parked, printed)
}
