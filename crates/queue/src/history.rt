//! Calls made on a new queue, and what each of them told.
ghost use Rattle.std.specs.Prelude.{◌≡◌};
ghost use Rattle.queue.specs.Views.{fresh};
ghost use Rattle.queue.specs.History.{told, after, history, final};
ghost use Rattle.queue.specs.Account.{Account};
ghost use Rattle.queue.specs.Samples.{Telling};
ghost use Rattle.queue.specs.Sound.{Sound};

use crate::axis::{AxisQueue, Head, Refusal};
use crate::entry::Batch;

/// A call with what it told.
#[derive(Clone, Copy, Debug, PartialEq, Eq)]
pub enum Step {
    Place(Batch, Result<(), Refusal>),
    Look(Option<Head>),
    Take(Option<Head>),
    Clear(usize),
    Free(usize),
}

/// Makes the calls of `steps` on a new queue, and writes into each step what its call told.
#[tactic(auto, using(crate::proofs::Stretches::account, crate::proofs::Tells::telling))]
pub fn run(steps: &mut [Step]) -> AxisQueue
    ensures says { steps.new ≡ history fresh steps.old }
    ensures does { result ≡ final fresh steps.old }
    ensures account { Account steps.new result.entries }
    ensures telling { Telling }
    ensures sound { Sound result }
{
    let mut queue = AxisQueue::new();
    make(&mut queue, steps);
    queue
}

/// Makes the calls of `steps` on `queue`, and writes into each step what its call told.
fn make(queue: &mut AxisQueue, steps: &mut [Step])
    ensures says { steps.new ≡ history queue.old steps.old }
    ensures does { queue.new ≡ final queue.old steps.old }
    ensures sound { Sound queue.old → Sound queue.new }
{
    for step in steps.iter_mut() {
        *step = made(queue, *step);
    }
}

/// The step with what its call tells, made on `queue`.
fn made(queue: &mut AxisQueue, step: Step) -> Step
    ensures says { result ≡ told queue.old step }
    ensures does { queue.new ≡ after queue.old step }
    ensures sound { Sound queue.new }
{
    match step {
        Step::Place(batch, _) => Step::Place(batch, queue.place(batch)),
        Step::Look(_) => Step::Look(queue.head()),
        Step::Take(_) => Step::Take(queue.take()),
        Step::Clear(_) => Step::Clear(queue.clear()),
        Step::Free(_) => Step::Free(queue.free_places()),
    }
}
