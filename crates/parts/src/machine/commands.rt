//! One axis's part of a command, and why a command is not placed.
ghost use Rattle.std.specs.Prelude.{◌≡◌};
ghost use Rattle.std.specs.Result.{result_err};
ghost use Rattle.drive.specs.Axes.{index, in_order};
ghost use Rattle.command.specs.Requests.{batch_on};
ghost use Rattle.model.specs.Machine.{place, clear_if};
ghost use Rattle.model.specs.Controller.{Condition, conditions, barred, barring};
ghost use Rattle.parts.specs.Conditions.{FailsBy, RefusesBy, killed, few_places, full_count};
ghost use Rattle.parts.specs.Views.{machine_view, part};

use super::Machine;
use crate::post::Post;
use crate::rows::{self, Kind};
use command::request::Request;
use drive::axis::Axis;
use drive::motion::Drive;
use model::refusal::Refusal;
use model::row::Row;
use queue::entry::Batch;

impl<D: Drive> Machine<D> {
    /// Places the batch, if there is one and it finds room.
    pub(super) fn place(&mut self, axis: Axis, batch: Option<Batch>) -> Row
        ensures { part D.Drive.state self.new result ≡ place D.Drive.ops batch (index axis) (machine_view D.Drive.state self.old) }
    {
        let Some(batch) = batch else {
            return rows::NOTHING;
        };
        self.posts[axis.index()].place(batch);
        rows::counted(Kind::Accepted, batch.len())
    }

    /// Clears the axis where `named` says so, and halts it then where `halt` does.
    pub(super) fn clear_if(&mut self, axis: Axis, named: bool, halt: bool) -> Row
        ensures { part D.Drive.state self.new result ≡ clear_if D.Drive.ops named halt (index axis) (machine_view D.Drive.state self.old) }
    {
        if named {
            rows::counted(Kind::ByCommand, self.clear(axis, halt))
        } else {
            rows::NOTHING
        }
    }

    /// The refusal for the first axis whose post fails for what the request places on it.
    fn refuse_where<F: Fn(&Post, Batch) -> bool, G: Fn(Axis) -> Refusal>(
        &self,
        request: &Request,
        fails: F,
        refusal: G,
    ) -> Result<(), Refusal>
        requires fails { F.IsAlwaysCallable fails }
        requires refusal { G.IsAlwaysCallable refusal }
        ensures { (c : Condition) → FailsBy (F.post fails) c → RefusesBy (G.post refusal) c → barred (machine_view D.Drive.state self.now) (batch_on request.now) c in_order ≡ result_err result }
    {
        for axis in Axis::ALL {
            if let Some(batch) = request.batch(axis) {
                if fails(self.post(axis), batch) {
                    return Err(refusal(axis));
                }
            }
        }
        Ok(())
    }

    // A function for each condition, whose clause says which one it tries.
    fn refuse_killed(&self, request: &Request) -> Result<(), Refusal>
        ensures { barred (machine_view D.Drive.state self.now) (batch_on request.now) killed in_order ≡ result_err result }
    {
        self.refuse_where(request, |post, _| post.is_killed(), Refusal::Killed)
    }

    fn refuse_few_places(&self, request: &Request) -> Result<(), Refusal>
        ensures { barred (machine_view D.Drive.state self.now) (batch_on request.now) few_places in_order ≡ result_err result }
    {
        self.refuse_where(
            request,
            |post, batch| post.lacks_places(batch),
            Refusal::Places,
        )
    }

    fn refuse_full_count(&self, request: &Request) -> Result<(), Refusal>
        ensures { barred (machine_view D.Drive.state self.now) (batch_on request.now) full_count in_order ≡ result_err result }
    {
        self.refuse_where(
            request,
            |post, batch| post.lacks_count(batch),
            Refusal::Count,
        )
    }

    /// Whether the request can be placed: each condition is tried over all axes before the next.
    #[tactic(auto, unfolding(model::specs::Controller::barring))]
    pub fn admits(&self, request: &Request) -> Result<(), Refusal>
        ensures { result_err result ≡ barring (machine_view D.Drive.state self.now) (batch_on request.now) conditions }
    {
        self.refuse_killed(request)?;
        self.refuse_few_places(request)?;
        self.refuse_full_count(request)
    }
}
