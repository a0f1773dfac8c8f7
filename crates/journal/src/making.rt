//! One call on a controller, and what it told.
ghost use Rattle.std.specs.Prelude.{◌≡◌};
ghost use Rattle.model.specs.Controller as C;
ghost use Rattle.controller.specs.Views.{on_parked, on_live};
ghost use Rattle.journal.specs.Views.{call_view, outcome_view, state_view, after_view};
ghost use Rattle.model.specs.Seen.{of_command, of_sheet, of_set};

use crate::calls::{Call, Outcome};
use command::request::Port;
use controller::{Live, Parked};
use drive::health::Health;
use drive::motion::Drive;
use model::refusal::Refusal;
use model::row::Row;

/// A controller in either state.
#[derive(Drop)]
pub(crate) enum State<D> {
    Parked(Parked<D>),
    Live(Live<D>),
}

/// What a setting told.
fn settled_by(reply: Result<(), Refusal>) -> Outcome
    ensures { outcome_view result ≡ of_set reply }
{
    match reply {
        Ok(()) => Outcome::Done,
        Err(refusal) => Outcome::Refused(refusal),
    }
}

/// What a command told.
fn told_by(reply: Result<usize, Refusal>, sheet: Vec<Row>, mut answer: Vec<u8>) -> Outcome
    ensures { outcome_view result ≡ of_command reply sheet.items answer.items }
{
    match reply {
        Ok(len) => {
            answer.truncate(len);
            Outcome::Told {
                rows: sheet,
                answer,
            }
        }
        Err(refusal) => Outcome::Refused(refusal),
    }
}

/// What a sample or a step told: rows, and no answer.
fn rowed_by(reply: Result<(), Refusal>, sheet: Vec<Row>) -> Outcome
    ensures { outcome_view result ≡ of_sheet reply sheet.items }
{
    let no_answer = Vec::new(*sheet.allocator());
    told_by(reply.map(|()| 0), sheet, no_answer)
}

fn on_parked<D: Drive>(mut parked: Parked<D>, call: Call) -> (State<D>, Outcome)
    ensures { after_view D.Drive.state result.0 result.1 ≡ on_parked D.Drive.state D.Drive.ops parked (call_view call) }
{
    match call {
        Call::Set(text) => {
            let outcome = settled_by(parked.set(text.as_slice()));
            (State::Parked(parked), outcome)
        }
        Call::Arm(word) => (State::Live(parked.arm(word)), Outcome::Done),
        _ => (State::Parked(parked), Outcome::Untaken),
    }
}

fn command<D: Drive>(
    mut live: Live<D>,
    port: Port,
    text: &[u8],
    mut sheet: Vec<Row>,
    mut answer: Vec<u8>,
) -> (State<D>, Outcome)
    ensures { after_view D.Drive.state result.0 result.1 ≡ on_live D.Drive.state D.Drive.ops live (C.command port text.now sheet.items answer.items) }
{
    let reply = live.command(port, text, sheet.as_mut_slice(), answer.as_mut_slice());
    (State::Live(live), told_by(reply, sheet, answer))
}

fn sample<D: Drive>(mut live: Live<D>, word: u16, mut sheet: Vec<Row>) -> (State<D>, Outcome)
    ensures { after_view D.Drive.state result.0 result.1 ≡ on_live D.Drive.state D.Drive.ops live (C.sample word sheet.items) }
{
    let reply = live.sample(word, sheet.as_mut_slice());
    (State::Live(live), rowed_by(reply, sheet))
}

fn step<D: Drive>(
    mut live: Live<D>,
    readings: &[i64],
    health: Health,
    mut sheet: Vec<Row>,
) -> (State<D>, Outcome)
    ensures { after_view D.Drive.state result.0 result.1 ≡ on_live D.Drive.state D.Drive.ops live (C.step readings.now health sheet.items) }
{
    let reply = live.step(readings, health, sheet.as_mut_slice());
    (State::Live(live), rowed_by(reply, sheet))
}

fn park<D: Drive>(live: Live<D>) -> (State<D>, Outcome)
    ensures { after_view D.Drive.state result.0 result.1 ≡ on_live D.Drive.state D.Drive.ops live C.park }
{
    let parked = live.park();
    let dropped = parked.dropped();
    (State::Parked(parked), Outcome::Dropped(dropped))
}

fn on_live<D: Drive>(live: Live<D>, call: Call) -> (State<D>, Outcome)
    ensures { after_view D.Drive.state result.0 result.1 ≡ on_live D.Drive.state D.Drive.ops live (call_view call) }
{
    match call {
        Call::Command {
            port,
            text,
            sheet,
            answer,
        } => command(live, port, text.as_slice(), sheet, answer),
        Call::Sample { word, sheet } => sample(live, word, sheet),
        Call::Step {
            readings,
            health,
            sheet,
        } => step(live, readings.as_slice(), health, sheet),
        Call::Park => park(live),
        _ => (State::Live(live), Outcome::Untaken),
    }
}

/// Makes the call; one that the state does not take changes nothing.
pub(crate) fn make<D: Drive>(state: State<D>, call: Call) -> (State<D>, Outcome)
    ensures { after_view D.Drive.state result.0 result.1 ≡ C.call D.Drive.ops (state_view D.Drive.state state) (call_view call) }
{
    match state {
        State::Parked(parked) => on_parked(parked, call),
        State::Live(live) => on_live(live, call),
    }
}
