//! What a live controller takes and tells.
//! By a rule of the project a host lends the sheet and the answer block, and they are written in place.
ghost use Rattle.std.specs.Prelude.{◌≡◌, true, []};
ghost use Rattle.drive.specs.Axes.{axes, index};
ghost use Rattle.model.specs.Machine.{each, clear, judged, turn};
ghost use Rattle.model.specs.Controller.{after, parked, live, command, sample, step, told, dropped_all, all_parts, sampling, advancing, parking};
ghost use Rattle.controller.specs.Backs.{ReadBack};
ghost use Rattle.controller.specs.Replies.{Took, Did};
ghost use Rattle.controller.specs.Views.{parked_view, live_view, on_live};

use crate::states::{Live, Parked};
use command::read;
use command::request::{Context, Port};
use drive::axis::{AXES, Axis};
use drive::health::Health;
use drive::motion::Drive;
use model::refusal::Refusal;
use model::row::Row;

/// The fewest bytes of an answer block, and the most of an answer.
pub const ANSWER: usize = 192;

impl<D: Drive> Live<D> {
    /// Does what a text asks, and tells the length of the answer, 0 for none. Positions that are told read back as numbers.
    pub fn command(
        &mut self,
        port: Port,
        text: &[u8],
        sheet: &mut [Row],
        answer: &mut [u8],
    ) -> Result<usize, Refusal>
        ensures does { Did (on_live D.Drive.state D.Drive.ops self.old (command port text.now sheet.old answer.old)) (live (live_view D.Drive.state self.new)) result sheet.old sheet.new answer.old answer.new }
        ensures back { ReadBack D.Drive.ops (live_view D.Drive.state self.old) port text.now result answer.new }
    {
        let sheet = sheet.as_mut_array().ok_or(Refusal::Sheet)?;
        let answer = answer.first_chunk_mut().ok_or(Refusal::Answer)?;
        let context = Context {
            selection: self.selection,
            last: self.last,
            settings: self.setup.settings(),
        };
        match read(port, text, &context) {
            Ok(command) => self.obey(command, sheet, answer),
            Err(unread) => {
                self.note(port, unread.recorded(text));
                Err(Refusal::Text(unread))
            }
        }
    }

    /// Takes a word of sampled contacts, and kills and frees axes by it.
    pub fn sample(&mut self, word: u16, sheet: &mut [Row]) -> Result<(), Refusal>
        ensures { Took (on_live D.Drive.state D.Drive.ops self.old (sample word sheet.old)) (live (live_view D.Drive.state self.new)) result sheet.old sheet.new }
    {
        let sheet = sheet.as_mut_array().ok_or(Refusal::Sheet)?;
        self.judge(word, sheet);
        Ok(())
    }

    /// As a sample, with a row for each axis.
    fn judge(&mut self, word: u16, sheet: &mut [Row; AXES])
        ensures { after (live (live_view D.Drive.state self.new)) (told sheet.new []) ≡ all_parts (sampling (live_view D.Drive.state self.old) word) (each axes (judged D.Drive.ops word) (live_view D.Drive.state self.old).machine) }
    {
        self.sampled = word;
        self.machine.judge_each(word, sheet);
    }

    /// Advances the drive once, then executes at most one entry of each axis.
    pub fn step(
        &mut self,
        readings: &[i64],
        health: Health,
        sheet: &mut [Row],
    ) -> Result<(), Refusal>
        ensures { Took (on_live D.Drive.state D.Drive.ops self.old (step readings.now health sheet.old)) (live (live_view D.Drive.state self.new)) result sheet.old sheet.new }
    {
        let sheet = sheet.as_mut_array().ok_or(Refusal::Sheet)?;
        if readings.len() != AXES {
            return Err(Refusal::Readings);
        }
        self.turn(readings, health, sheet);
        Ok(())
    }

    /// As a step, with a reading and a row for each axis.
    fn turn(&mut self, readings: &[i64], health: Health, sheet: &mut [Row; AXES])
        ensures { after (live (live_view D.Drive.state self.new)) (told sheet.new []) ≡ all_parts (live_view D.Drive.state self.old) (each axes (turn D.Drive.ops self.old.sampled) (advancing D.Drive.ops (live_view D.Drive.state self.old) readings.now health)) }
    {
        self.machine.advance(readings, health);
        self.machine.turn_each(self.sampled, sheet);
    }

    /// Clears and halts every axis, and waits to be armed again.
    pub fn park(self) -> Parked<D>
        ensures { after (parked (parked_view D.Drive.state result)) (dropped_all result.dropped) ≡ parking (live_view D.Drive.state self) (each axes (clear D.Drive.ops true) (live_view D.Drive.state self).machine) }
    {
        let Live {
            mut machine,
            setup,
            selection: _,
            last: _,
            sampled: _,
            errors: _,
        } = self;
        let dropped = machine.drop_all();
        Parked {
            machine,
            setup,
            dropped,
        }
    }

    /// The output word.
    pub fn output(&self) -> u16
        ensures { result ≡ (live_view D.Drive.state self.now).machine.output }
    {
        self.machine.output()
    }

    /// Where the axis is.
    pub fn position(&self, axis: Axis) -> i64
        ensures { result ≡ D.Drive.ops.position (live_view D.Drive.state self.now).machine.drive (index axis) }
    {
        self.machine.position(axis)
    }

    /// Where the axis is going.
    pub fn target(&self, axis: Axis) -> i64
        ensures { result ≡ D.Drive.ops.target (live_view D.Drive.state self.now).machine.drive (index axis) }
    {
        self.machine.target(axis)
    }
}
