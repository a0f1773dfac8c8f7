//! One axis's part of a sample.
ghost use Rattle.std.specs.Prelude.{◌≡◌, true, false};
ghost use Rattle.drive.specs.Axes.{index};
ghost use Rattle.model.specs.Machine.{judge, judged};
ghost use Rattle.parts.specs.Views.{machine_view, part};

use super::Machine;
use crate::rows::{self, Kind};
use drive::axis::Axis;
use drive::motion::Drive;
use model::row::Row;

impl<D: Drive> Machine<D> {
    /// By whether the axis is killed, and whether a kill input stands at its level.
    fn judge_by(&mut self, axis: Axis, killed: bool, hit: bool) -> Row
        ensures { part D.Drive.state self.new result ≡ judge D.Drive.ops killed hit (index axis) (machine_view D.Drive.state self.old) }
    {
        match (killed, hit) {
            (false, true) => {
                let dropped = self.posts[axis.index()].kill();
                self.drive.halt(axis);
                rows::counted(Kind::BySample, dropped)
            }
            (true, false) => {
                self.posts[axis.index()].free();
                rows::NOTHING
            }
            (false, false) | (true, true) => rows::NOTHING,
        }
    }

    /// The sampled word for one axis: it is killed, is killed no longer, or neither.
    #[tactic(auto, unfolding(model::specs::Machine::judged))]
    pub(super) fn judge(&mut self, axis: Axis, word: u16) -> Row
        ensures { part D.Drive.state self.new result ≡ judged D.Drive.ops word (index axis) (machine_view D.Drive.state self.old) }
    {
        let killed = self.post(axis).is_killed();
        let hit = self.post(axis).is_hit(word);
        self.judge_by(axis, killed, hit)
    }
}
