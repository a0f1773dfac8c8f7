//! Making a controller, and what a parked one takes and tells.
ghost use Rattle.std.specs.Prelude.{◌≡◌};
ghost use Rattle.model.specs.Account.{Accounted};
ghost use Rattle.model.specs.Controller.{parked, set_call, apply, arming, new};
ghost use Rattle.controller.specs.Replies.{taken};
ghost use Rattle.controller.specs.Views.{parked_view, live_view, on_parked};

use crate::setup::Setup;
use crate::states::{Live, Parked};
use answers::ErrorRecord;
use command::read_setting;
use command::request::{Selection, Setting};
use contacts::kill::KillInputs;
use contacts::word::Contact;
use drive::axis::{AXES, Axis};
use drive::motion::Drive;
use model::refusal::Refusal;
use parts::Machine;

impl<D: Drive> Parked<D> {
    /// A controller over the drive, parked: every axis is halted, and has no kill input and its units off.
    /// Every run of calls from it keeps the account.
    pub fn new(drive: D) -> Parked<D>
        ensures says { parked (parked_view D.Drive.state result) ≡ new D.Drive.ops (D.Drive.state drive) }
        ensures account { Accounted D.Drive.ops (D.Drive.state drive) }
    {
        Parked {
            machine: Machine::new(drive),
            setup: Setup::new(),
            dropped: [0; AXES],
        }
    }

    /// Changes one setting, or Set's own axis, as the text asks.
    pub fn set(&mut self, text: &[u8]) -> Result<(), Refusal>
        ensures says { result ≡ taken (on_parked D.Drive.state D.Drive.ops self.old (set_call text.now)).outcome }
        ensures does { parked (parked_view D.Drive.state self.new) ≡ (on_parked D.Drive.state D.Drive.ops self.old (set_call text.now)).now }
    {
        self.apply(read_setting(text)?);
        Ok(())
    }

    fn apply(&mut self, setting: Setting)
        ensures { parked_view D.Drive.state self.new ≡ apply setting (parked_view D.Drive.state self.old) }
    {
        let axis = self.setup.axis();
        match setting {
            Setting::Select(axis) => self.setup.select(axis),
            Setting::UnitsOn(factor) => self.setup.set_units(Some(factor)),
            Setting::UnitsOff => self.setup.set_units(None),
            Setting::KillInput { bit, level } => {
                let kills = self.machine.kills(axis);
                self.machine
                    .set_kills(axis, kills.with(Contact::new(i64::from(bit)), level));
            }
            Setting::NoKillInputs => self.machine.set_kills(axis, KillInputs::none()),
        }
    }

    /// Live, with the word as its first sample.
    pub fn arm(self, word: u16) -> Live<D>
        ensures { live_view D.Drive.state result ≡ arming (parked_view D.Drive.state self) word }
    {
        let Parked {
            mut machine,
            setup,
            dropped: _,
        } = self;
        machine.arm(word);
        Live {
            machine,
            setup,
            selection: Selection::One(Axis::X),
            last: Axis::X,
            sampled: word,
            errors: ErrorRecord::empty(),
        }
    }

    /// How many entries of each axis the last park dropped.
    pub fn dropped(&self) -> [usize; AXES]
        ensures { result ≡ (parked_view D.Drive.state self.now).dropped }
    {
        self.dropped
    }

    /// The very drive that it stands over.
    pub fn into_drive(self) -> D
        ensures { result ≡ self.machine.drive }
    {
        let Parked {
            machine,
            setup: _,
            dropped: _,
        } = self;
        machine.into_drive()
    }
}
