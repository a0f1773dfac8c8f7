//! All axes' parts of a call, in their order. A sheet that has not a row for each axis is refused, and nothing is changed then.
ghost use Rattle.std.specs.Prelude.{◌≡◌, ℕ, true, length};
ghost use Rattle.drive.specs.Axes.{axes};
ghost use Rattle.command.specs.Requests.{batch_on};
ghost use Rattle.model.specs.Machine as M;
ghost use Rattle.model.specs.Machine.{each, clear, judged, turn, placing};
ghost use Rattle.parts.specs.Views.{machine_view, part, Does, cleared_by, sheet_taken, if_taken};

use super::Machine;
use command::request::Request;
use drive::axis::{AXES, Axis};
use drive::motion::Drive;
use model::refusal::Refusal;
use model::row::Row;

impl<D: Drive> Machine<D> {
    /// Does one axis's part after the other, and writes down what each tells.
    /// By a rule of the project the rows are written in place: it fills the lent array, and gives back none.
    fn each_axis<R: Copy, F: Fn(&mut Machine<D>, Axis, &mut R)>(
        &mut self,
        told: &mut [R; AXES],
        act: F,
    )
        requires { F.IsAlwaysCallable act }
        ensures { (f : ℕ → M.Machine D.Drive.State → M.Part D.Drive.State R) → Does D.Drive.state (F.post act) f → part D.Drive.state self.new told.new ≡ each axes f (machine_view D.Drive.state self.old) }
    {
        for axis in Axis::ALL {
            act(self, axis, &mut told[axis.index()]);
        }
    }

    /// The sampled word, for each axis.
    #[tactic(auto, using(crate::proofs::Loops::sheets))]
    pub fn judge_all(&mut self, word: u16, sheet: &mut [Row]) -> Result<(), Refusal>
        ensures says { result ≡ sheet_taken (length sheet.old) }
        ensures does { part D.Drive.state self.new sheet.new ≡ if_taken (length sheet.old) (each axes (judged D.Drive.ops word) (machine_view D.Drive.state self.old)) (part D.Drive.state self.old sheet.old) }
    {
        let Some(sheet) = sheet.as_mut_array() else {
            return Err(Refusal::Sheet); // before any axis is judged
        };
        self.judge_each(word, sheet);
        Ok(())
    }

    /// As `judge_all`, with a row for each axis.
    pub fn judge_each(&mut self, word: u16, sheet: &mut [Row; AXES])
        ensures { part D.Drive.state self.new sheet.new ≡ each axes (judged D.Drive.ops word) (machine_view D.Drive.state self.old) }
    {
        self.each_axis(sheet, |machine, axis, row| *row = machine.judge(axis, word));
    }

    /// The step of each axis, under the sampled word.
    #[tactic(auto, using(crate::proofs::Loops::sheets))]
    pub fn turn_all(&mut self, word: u16, sheet: &mut [Row]) -> Result<(), Refusal>
        ensures says { result ≡ sheet_taken (length sheet.old) }
        ensures does { part D.Drive.state self.new sheet.new ≡ if_taken (length sheet.old) (each axes (turn D.Drive.ops word) (machine_view D.Drive.state self.old)) (part D.Drive.state self.old sheet.old) }
    {
        let Some(sheet) = sheet.as_mut_array() else {
            return Err(Refusal::Sheet);
        };
        self.turn_each(word, sheet);
        Ok(())
    }

    /// As `turn_all`, with a row for each axis.
    pub fn turn_each(&mut self, word: u16, sheet: &mut [Row; AXES])
        ensures { part D.Drive.state self.new sheet.new ≡ each axes (turn D.Drive.ops word) (machine_view D.Drive.state self.old) }
    {
        self.each_axis(sheet, |machine, axis, row| *row = machine.turn(axis, word));
    }

    /// What the request places, on each axis.
    #[tactic(auto, using(crate::proofs::Loops::sheets))]
    pub fn place_all(&mut self, request: &Request, sheet: &mut [Row]) -> Result<(), Refusal>
        ensures says { result ≡ sheet_taken (length sheet.old) }
        ensures does { part D.Drive.state self.new sheet.new ≡ if_taken (length sheet.old) (each axes (placing D.Drive.ops (batch_on request.now)) (machine_view D.Drive.state self.old)) (part D.Drive.state self.old sheet.old) }
    {
        let Some(sheet) = sheet.as_mut_array() else {
            return Err(Refusal::Sheet);
        };
        self.place_each(request, sheet);
        Ok(())
    }

    /// As `place_all`, with a row for each axis.
    #[tactic(auto, unfolding(model::specs::Machine::placing))]
    pub fn place_each(&mut self, request: &Request, sheet: &mut [Row; AXES])
        ensures { part D.Drive.state self.new sheet.new ≡ each axes (placing D.Drive.ops (batch_on request.now)) (machine_view D.Drive.state self.old) }
    {
        self.each_axis(
            sheet,
            |machine, axis, row| *row = machine.place(axis, request.batch(axis)),
        );
    }

    /// Clears the axes that the request clears, and halts them where `halt` says so.
    #[tactic(auto, using(crate::proofs::Loops::sheets))]
    pub fn clear_all(
        &mut self,
        request: &Request,
        halt: bool,
        sheet: &mut [Row],
    ) -> Result<(), Refusal>
        ensures says { result ≡ sheet_taken (length sheet.old) }
        ensures does { part D.Drive.state self.new sheet.new ≡ if_taken (length sheet.old) (each axes (cleared_by D.Drive.ops request.now halt) (machine_view D.Drive.state self.old)) (part D.Drive.state self.old sheet.old) }
    {
        let Some(sheet) = sheet.as_mut_array() else {
            return Err(Refusal::Sheet);
        };
        self.clear_each(request, halt, sheet);
        Ok(())
    }

    /// As `clear_all`, with a row for each axis.
    #[tactic(auto, unfolding(crate::specs::Views::cleared_by))]
    pub fn clear_each(&mut self, request: &Request, halt: bool, sheet: &mut [Row; AXES])
        ensures { part D.Drive.state self.new sheet.new ≡ each axes (cleared_by D.Drive.ops request.now halt) (machine_view D.Drive.state self.old) }
    {
        self.each_axis(
            sheet,
            |machine, axis, row| *row = machine.clear_if(axis, request.clears(axis), halt),
        );
    }

    /// Clears and halts every axis; tells how many entries of each were dropped.
    pub fn drop_all(&mut self) -> [usize; AXES]
        ensures { part D.Drive.state self.new result ≡ each axes (clear D.Drive.ops true) (machine_view D.Drive.state self.old) }
    {
        let mut dropped = [0; AXES];
        self.each_axis(
            &mut dropped,
            |machine, axis, count| *count = machine.clear(axis, true),
        );
        dropped
    }
}
