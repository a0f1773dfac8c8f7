//! What a command makes of a live controller, and what a refused text leaves.
ghost use Rattle.std.specs.Prelude.{◌≡◌, ◌≤◌, length, IfOk};
ghost use Rattle.drive.specs.Axes.{axes};
ghost use Rattle.model.specs.Machine.{each};
ghost use Rattle.model.specs.Controller.{live, on, erring, noted, obey};
ghost use Rattle.parts.specs.Views.{machine_view, cleared_by};
ghost use Rattle.controller.specs.Replies.{Did};
ghost use Rattle.controller.specs.Views.{live_view};

use crate::live_calls::ANSWER;
use crate::states::Live;
use answers::{Question, write_figures};
use command::request::{Command, Port, Request};
use drive::axis::AXES;
use drive::motion::Drive;
use model::refusal::Refusal;
use model::row::Row;

/// A sheet on which nothing is told.
const BLANK: [Row; AXES] = [Row::NOTHING; AXES];

impl<D: Drive> Live<D> {
    /// Does what a command asks, and tells the length of the answer.
    pub(crate) fn obey(
        &mut self,
        command: Command,
        sheet: &mut [Row; AXES],
        answer: &mut [u8; ANSWER],
    ) -> Result<usize, Refusal>
        ensures does { Did (obey D.Drive.ops (live_view D.Drive.state self.old) command.last command.request) (live (live_view D.Drive.state self.new)) result sheet.old sheet.new answer.old answer.new }
        ensures fits { IfOk result (λ len. len ≤ 192) }
    {
        let Command { request, last } = command;
        let len = match request {
            Request::Select(selection) => {
                self.selection = selection;
                *sheet = BLANK;
                0
            }
            Request::Place { .. } => {
                self.machine.admits(&request)?;
                self.machine.place_each(&request, sheet);
                0
            }
            Request::Clear { halt, .. } => {
                self.clear(&request, halt, sheet);
                0
            }
            Request::Positions(of) => {
                *sheet = BLANK;
                write_figures(&self.machine, Question::Position, of, answer)
            }
            Request::Places(of) => {
                *sheet = BLANK;
                write_figures(&self.machine, Question::Places, of, answer)
            }
            Request::ErrorRecord => {
                *sheet = BLANK;
                let len = self.errors.write(answer);
                self.errors.clear();
                len
            }
        };
        self.last = last;
        Ok(len)
    }

    /// The axes that the request clears are cleared, and halted where `halt` says so.
    fn clear(&mut self, request: &Request, halt: bool, sheet: &mut [Row; AXES])
        ensures does { live_view D.Drive.state self.new ≡ on (live_view D.Drive.state self.old) (each axes (cleared_by D.Drive.ops request.now halt) (machine_view D.Drive.state self.old.machine)).now }
        ensures rows { sheet.new ≡ (each axes (cleared_by D.Drive.ops request.now halt) (machine_view D.Drive.state self.old.machine)).tells }
    {
        self.machine.clear_each(request, halt, sheet);
    }

    /// A refused text of port M fills an empty first-error record.
    pub(crate) fn note(&mut self, port: Port, text: &[u8])
        requires { length text.now ≤ 160 }
        ensures { live_view D.Drive.state self.new ≡ erring (live_view D.Drive.state self.old) (noted port (live_view D.Drive.state self.old).errors text.now) }
    {
        match port {
            Port::M => self.errors.note(text),
            Port::P => {}
        }
    }
}
