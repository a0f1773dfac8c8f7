//! What a machine tells.
ghost use Rattle.std.specs.Prelude.{◌≡◌};
ghost use Rattle.drive.specs.Axes.{index};
ghost use Rattle.drive.specs.Range.{InRange};
ghost use Rattle.queue.specs.Sound.{Sound};
ghost use Rattle.queue.specs.Views.{free};
ghost use Rattle.model.specs.Machine.{at};
ghost use Rattle.parts.specs.Views.{machine_view};

use super::Machine;
use contacts::kill::KillInputs;
use drive::axis::Axis;
use drive::motion::Drive;

impl<D: Drive> Machine<D> {
    pub fn kills(&self, axis: Axis) -> KillInputs
        ensures { result ≡ (at (index axis) (machine_view D.Drive.state self.now)).kills }
    {
        self.post(axis).kills()
    }

    pub fn position(&self, axis: Axis) -> i64
        ensures value { result ≡ D.Drive.ops.position (machine_view D.Drive.state self.now).drive (index axis) }
        ensures range { InRange result }
    {
        self.drive.position(axis)
    }

    pub fn target(&self, axis: Axis) -> i64
        ensures value { result ≡ D.Drive.ops.target (machine_view D.Drive.state self.now).drive (index axis) }
        ensures range { InRange result }
    {
        self.drive.target(axis)
    }

    pub fn free_places(&self, axis: Axis) -> usize
        ensures is { result ≡ free (at (index axis) (machine_view D.Drive.state self.now)).queue }
        ensures sound { Sound (at (index axis) (machine_view D.Drive.state self.now)).queue }
    {
        self.post(axis).free_places()
    }

    pub fn output(&self) -> u16
        ensures { result ≡ (machine_view D.Drive.state self.now).output }
    {
        self.output
    }
}
