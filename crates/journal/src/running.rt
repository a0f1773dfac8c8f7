//! The journal of a list of calls.
ghost use Rattle.std.specs.Prelude.{◌≡◌, map, IfOk};
ghost use Rattle.model.specs.Controller.{new};
ghost use Rattle.journal.specs.Journals.{outcomes, Kept};
ghost use Rattle.journal.specs.Views.{call_view, outcome_view};

use crate::calls::{Call, Outcome};
use crate::making::{State, make};
use controller::Parked;
use drive::motion::Drive;
use std::alloc::{AllocError, Global};

/// Makes a controller over the drive and the calls on it, one after the other, and gives back what each told. The account holds
/// of that journal.
pub fn run<D: Drive + Drop>(
    heap: Global,
    drive: D,
    calls: Vec<Call>,
) -> Result<Vec<Outcome>, AllocError>
    ensures journal { IfOk result (λ v. map outcome_view v.items ≡ outcomes D.Drive.ops (new D.Drive.ops (D.Drive.state drive)) (map call_view calls.items)) }
    ensures account { IfOk result (λ v. Kept D.Drive.ops (D.Drive.state drive) (map call_view calls.items) (map outcome_view v.items)) }
{
    let mut journal = Vec::new(heap);
    let mut state = State::Parked(Parked::new(drive));
    for call in calls {
        let (next, outcome) = make(state, call);
        state = next;
        journal.push(outcome)?;
    }
    Ok(journal)
}
