//! Making a machine and giving its drive back, and what it does apart from the parts of a call.
ghost use Rattle.std.specs.Prelude.{◌≡◌, map, replicate};
ghost use Rattle.drive.specs.Axes.{axes, index};
ghost use Rattle.drive.specs.Drive.{all_halted};
ghost use Rattle.model.specs.Controller.{armed};
ghost use Rattle.model.specs.Machine.{blank, at, clear};
ghost use Rattle.parts.specs.Views.{machine_view, part, kills_put, advanced};

use super::Machine;
use crate::post::Post;
use contacts::kill::KillInputs;
use drive::axis::{AXES, Axis};
use drive::health::Health;
use drive::motion::{Drive, halt_all};
use std::array;

/// A blank post for each axis.
fn blank_posts() -> [Post; AXES]
    ensures { result ≡ replicate axes blank }
{
    array::from_fn(|_| Post::new())
}

impl<D: Drive> Machine<D> {
    pub(super) fn post(&self, axis: Axis) -> &Post
        ensures { result.now ≡ at (index axis) (machine_view D.Drive.state self.now) }
    {
        &self.posts[axis.index()]
    }

    /// Over a drive: every axis is halted, and has nothing of its own.
    pub fn new(drive: D) -> Machine<D>
        ensures { machine_view D.Drive.state result ≡ record { drive = all_halted D.Drive.ops (D.Drive.state drive); posts = replicate axes blank; output = 0 } }
    {
        let mut drive = drive;
        halt_all(&mut drive);
        Machine {
            drive,
            posts: blank_posts(),
            output: 0,
        }
    }

    /// The drive, as it stands.
    pub fn into_drive(self) -> D
        ensures state { D.Drive.state result ≡ (machine_view D.Drive.state self).drive }
        ensures drive { result ≡ self.drive }
    {
        let Machine {
            drive,
            posts: _,
            output: _,
        } = self;
        drive
    }

    /// For arming under a word: each axis is armed, and no output bit is 1.
    pub fn arm(&mut self, word: u16)
        ensures { machine_view D.Drive.state self.new ≡ record { drive = D.Drive.state self.old.drive; posts = map (armed word) self.old.posts; output = 0 } }
    {
        for post in &mut self.posts {
            post.arm(word);
        }
        self.output = 0;
    }

    pub fn set_kills(&mut self, axis: Axis, kills: KillInputs)
        ensures { machine_view D.Drive.state self.new ≡ kills_put (index axis) (machine_view D.Drive.state self.old) kills }
    {
        self.posts[axis.index()].set_kills(kills);
    }

    /// The drive advances once.
    pub fn advance(&mut self, readings: &[i64], health: Health)
        ensures { machine_view D.Drive.state self.new ≡ advanced D.Drive.ops (machine_view D.Drive.state self.old) readings.now health }
    {
        self.drive.advance(readings, health);
    }

    /// Clears the axis, and halts it where `halt` says so; tells how many entries were dropped.
    #[tactic(auto, unfolding(model::specs::Machine::clear))]
    pub(super) fn clear(&mut self, axis: Axis, halt: bool) -> usize
        ensures { part D.Drive.state self.new result ≡ clear D.Drive.ops halt (index axis) (machine_view D.Drive.state self.old) }
    {
        let dropped = self.posts[axis.index()].clear();
        if halt {
            self.drive.halt(axis);
        }
        dropped
    }
}
