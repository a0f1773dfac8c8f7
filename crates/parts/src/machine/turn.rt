//! One axis's part of a step.
ghost use Rattle.std.specs.Prelude.{◌≡◌, Some};
ghost use Rattle.drive.specs.Axes.{index};
ghost use Rattle.drive.specs.Drive.{reply};
ghost use Rattle.queue.specs.Entries.{InRange, effect};
ghost use Rattle.queue.specs.Views.{head_of};
ghost use Rattle.model.specs.Machine.{at, aim, held, driven, runs, perform, turn};
ghost use Rattle.parts.specs.Turns.{executing, goes, answered};
ghost use Rattle.parts.specs.Views.{machine_view, part};

use super::Machine;
use crate::rows::{self, Kind};
use contacts::word::{Contact, bit, with_bit};
use drive::axis::Axis;
use drive::motion::{Decline, Drive};
use model::row::Row;
use queue::axis::Head;
use queue::entry::{Code, Entry};

/// Whether the entry waits for an input.
fn is_held(word: u16, entry: Entry) -> bool
    ensures { result ≡ held word entry }
{
    let level = bit(word, Contact::new(entry.operand));
    match entry.code {
        Code::Sw => !level,
        Code::Bw => level,
        Code::Ma | Code::Mr | Code::Go | Code::Bh | Code::Bl | Code::Ws => false,
    }
}

/// The output word after the entry.
fn output_after(output: u16, entry: Entry) -> u16
    ensures { result ≡ driven output entry }
{
    let contact = Contact::new(entry.operand);
    match entry.code {
        Code::Bh => with_bit(output, contact, true),
        Code::Bl => with_bit(output, contact, false),
        Code::Ma | Code::Mr | Code::Go | Code::Sw | Code::Bw | Code::Ws => output,
    }
}

impl<D: Drive> Machine<D> {
    /// The plan after the entry.
    fn plan_after(&self, axis: Axis, entry: Entry) -> Option<i64>
        requires { InRange entry.operand }
        ensures { result ≡ (effect (aim D.Drive.ops (index axis) (machine_view D.Drive.state self.now)) entry).plan }
    {
        match entry.code {
            Code::Ma => Some(entry.operand),
            Code::Mr => Some(self.drive.target(axis) + entry.operand),
            Code::Go => None,
            Code::Bh | Code::Bl | Code::Sw | Code::Bw | Code::Ws => self.post(axis).plan(),
        }
    }

    /// The head leaves the queue, and the plan becomes `plan`.
    // The head goes from call to call with its axis: read again, it would be an `Option` whose None cannot come.
    #[tactic(auto, using(crate::proofs::Branches::serial_of))]
    fn execute(&mut self, axis: Axis, head: Head, plan: Option<i64>) -> Row
        requires { head_of (at (index axis) (machine_view D.Drive.state self.old)).queue ≡ Some head }
        ensures { part D.Drive.state self.new result ≡ executing D.Drive.ops (index axis) (machine_view D.Drive.state self.old) plan head.entry }
    {
        self.posts[axis.index()].step(plan);
        rows::executed(head)
    }

    /// The head is executed, and begins no motion.
    #[tactic(auto, unfolding(model::specs::Machine::perform))]
    fn run(&mut self, axis: Axis, head: Head) -> Row
        requires { (head_of (at (index axis) (machine_view D.Drive.state self.old)).queue ≡ Some head) × (InRange head.entry.operand) }
        ensures { part D.Drive.state self.new result ≡ perform D.Drive.ops (index axis) (machine_view D.Drive.state self.old) (runs head.entry) }
    {
        let plan = self.plan_after(axis, head.entry);
        self.output = output_after(self.output, head.entry);
        self.execute(axis, head, plan)
    }

    /// The head is GO, and there is a plan.
    fn begin(&mut self, axis: Axis, head: Head, target: i64) -> Row
        requires { head_of (at (index axis) (machine_view D.Drive.state self.old)).queue ≡ Some head }
        ensures { part D.Drive.state self.new result ≡ perform D.Drive.ops (index axis) (machine_view D.Drive.state self.old) (answered head.entry target (reply D.Drive.ops (D.Drive.state self.old.drive) (index axis) target)) }
    {
        match self.drive.begin(axis, target) {
            Ok(()) => self.execute(axis, head, None),
            Err(Decline::Down) => rows::DRIVE_DOWN,
            Err(Decline::Reach) => rows::counted(Kind::ByReach, self.clear(axis, true)),
        }
    }

    /// The head is GO.
    fn go(&mut self, axis: Axis, head: Head) -> Row
        requires { (head_of (at (index axis) (machine_view D.Drive.state self.old)).queue ≡ Some head) × (InRange head.entry.operand) }
        ensures { part D.Drive.state self.new result ≡ perform D.Drive.ops (index axis) (machine_view D.Drive.state self.old) (goes D.Drive.ops (index axis) (machine_view D.Drive.state self.old) head.entry) }
    {
        match self.post(axis).plan() {
            Some(target) => self.begin(axis, head, target),
            None => self.run(axis, head),
        }
    }

    /// Executes at most the head of the axis's queue, under the sampled word.
    pub(super) fn turn(&mut self, axis: Axis, word: u16) -> Row
        ensures { part D.Drive.state self.new result ≡ turn D.Drive.ops word (index axis) (machine_view D.Drive.state self.old) }
    {
        if self.post(axis).is_killed() {
            return rows::KILLED;
        }
        let Some(head) = self.post(axis).head() else {
            return rows::NOTHING;
        };
        if !self.drive.is_still(axis) {
            return rows::IN_MOTION;
        }
        if is_held(word, head.entry) {
            return rows::AWAITING;
        }
        match head.entry.code {
            Code::Go => self.go(axis, head),
            _ => self.run(axis, head),
        }
    }
}
