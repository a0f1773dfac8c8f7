//! Numbers that axes have.
ghost use Rattle.std.specs.Prelude.{◌≡◌, ℤ, map, length};
ghost use Rattle.text.specs.Writing.{over};
ghost use Rattle.drive.specs.declared.axis.Axis.{Axis};
ghost use Rattle.parts.specs.Views.{machine_view};
ghost use Rattle.model.specs.Controller.{line, chosen_axes};
ghost use Rattle.answers.specs.Figures.{figure, Computes};

use crate::line::write_line;
use command::request::Selection;
use drive::axis::Axis;
use drive::motion::Drive;
use parts::Machine;

/// A number that an axis has.
#[derive(Clone, Copy)]
pub enum Question {
    /// Its position.
    Position,
    /// Its free command places.
    Places,
}

fn figure_of<D: Drive>(machine: &Machine<D>, question: Question, axis: Axis) -> i64
    ensures { result ≡ figure D.Drive.ops (machine_view D.Drive.state machine.now) question axis }
{
    match question {
        Question::Position => machine.position(axis),
        Question::Places => machine.free_places(axis) as i64,
    }
}

/// Writes what `figure` gives of the selected axes to the front of the block, as `write_figures` does.
fn write_each<F: Fn(Axis) -> i64>(block: &mut [u8], selection: Selection, figure: F) -> usize
    requires { F.IsAlwaysCallable figure }
    ensures len { (of : Axis → ℤ) → Computes F.Fn figure of → result ≡ length (line (map of (chosen_axes selection))) }
    ensures block { (of : Axis → ℤ) → Computes F.Fn figure of → block.new ≡ over (line (map of (chosen_axes selection))) block.old }
{
    match selection {
        Selection::One(axis) => write_line(block, &[figure(axis)]),
        Selection::All => write_line(block, &Axis::ALL.map(figure)),
    }
}

/// Writes the numbers of the selected axes to the front of the block, with commas between and a line feed after them, and says
/// how many bytes that takes; those past the block's end are not stored.
pub fn write_figures<D: Drive>(
    machine: &Machine<D>,
    question: Question,
    selection: Selection,
    block: &mut [u8],
) -> usize
    ensures len { result ≡ length (line (map (figure D.Drive.ops (machine_view D.Drive.state machine.now) question) (chosen_axes selection))) }
    ensures block { block.new ≡ over (line (map (figure D.Drive.ops (machine_view D.Drive.state machine.now) question) (chosen_axes selection))) block.old }
{
    write_each(block, selection, |axis| figure_of(machine, question, axis))
}
