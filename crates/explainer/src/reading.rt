//! Reads the texts of a block one after the other.
ghost use Rattle.std.specs.Prelude.{◌≡◌, [], IfOk};
ghost use Rattle.reports.specs.Tellings.{Tells};
ghost use Rattle.command.specs.Reading.{read, read_setting};
ghost use Rattle.explainer.specs.Readings.{named, start, after_command, after_setting, by_command, by_setting, told};

use crate::settings::setting_words;
use crate::words::{refused, request_words};
use command::request::{Command, Context, Port, Request, Selection, Setting};
use command::{read, read_setting};
use drive::axis::Axis;
use reports::{Teller, Told};
use std::alloc::{AllocError, Global};

/// Whose texts a block holds: port M's, port P's or Set's.
#[derive(Clone, Copy)]
pub enum Reading {
    Mount,
    Bench,
    Set,
}

impl Reading {
    /// The reading that a word names; port M's has no word.
    // No `FromStr`: its error would say no more than None does.
    pub fn named(word: &str) -> Option<Self>
        ensures { result ≡ named word.now }
    {
        match word {
            "p" => Some(Reading::Bench),
            "set" => Some(Reading::Set),
            _ => None,
        }
    }
}

/// Tells what each text of a block asks for. The texts before leave to the next port M's selection, port P's last axis, and
/// Set's own.
#[derive(Clone, Copy)]
pub(crate) struct Explainer {
    reading: Reading,
    selection: Selection,
    last: Axis,
    own: Axis,
}

impl Explainer {
    pub(crate) fn new(reading: Reading) -> Self
        ensures { result ≡ start reading }
    {
        Explainer {
            reading,
            selection: Selection::One(Axis::X),
            last: Axis::X,
            own: Axis::X,
        }
    }

    /// The command holds for the texts after it.
    fn follow_command(&mut self, command: &Command)
        ensures { self.new ≡ after_command self.old command.now }
    {
        if let Request::Select(selection) = command.request {
            self.selection = selection;
        }
        self.last = command.last;
    }

    /// The setting holds for the texts after it.
    fn follow_setting(&mut self, setting: &Setting)
        ensures { self.new ≡ after_setting self.old setting.now }
    {
        if let Setting::Select(own) = setting {
            self.own = *own;
        }
    }

    /// A text of a port. All units are off.
    fn tell_command(&mut self, heap: Global, port: Port, text: &[u8]) -> Result<Told, AllocError>
        ensures { IfOk result (λ t. Tells t self.new (by_command self.old (read port self.old.selection self.old.last [] text.now))) }
    {
        let context = Context {
            selection: self.selection,
            last: self.last,
            settings: &[],
        };
        match read(port, text, &context) {
            Ok(command) => {
                let words = request_words(heap, &command.request)?;
                self.follow_command(&command);
                Ok(Told::Known(words))
            }
            Err(refusal) => Ok(refused(refusal)),
        }
    }

    /// A text of Set.
    fn tell_setting(&mut self, heap: Global, text: &[u8]) -> Result<Told, AllocError>
        ensures { IfOk result (λ t. Tells t self.new (by_setting self.old (read_setting text.now))) }
    {
        match read_setting(text) {
            Ok(setting) => {
                let words = setting_words(heap, setting, self.own)?;
                self.follow_setting(&setting);
                Ok(Told::Known(words))
            }
            Err(refusal) => Ok(refused(refusal)),
        }
    }
}

impl Teller for Explainer {
    ghost telling = { told };

    fn tell(&mut self, heap: Global, text: &[u8]) -> Result<Told, AllocError> {
        match self.reading {
            Reading::Mount => self.tell_command(heap, Port::M, text),
            Reading::Bench => self.tell_command(heap, Port::P, text),
            Reading::Set => self.tell_setting(heap, text),
        }
    }
}
