//! One axis as the controller holds it.
ghost use Rattle.std.specs.Prelude.{◌≡◌, true, false, length, IfSome};
ghost use Rattle.contacts.specs.Kills.{hit};
ghost use Rattle.queue.specs.Entries.{InRange};
ghost use Rattle.queue.specs.Sound.{Sound};
ghost use Rattle.queue.specs.Views.{head_of, free, placed, taken, replanned, lacks_places, lacks_count};
ghost use Rattle.model.specs.Machine.{blank, waiting, emptied, marked, with_queue};
ghost use Rattle.model.specs.Controller.{armed};
ghost use Rattle.parts.specs.Views.{rekilled};

use contacts::kill::KillInputs;
use queue::axis::{AxisQueue, Head};
use queue::entry::Batch;
use std::marker::Model;

/// An axis's queue with its plan and its count, its kill inputs, and whether it is killed.
#[derive(Drop)]
pub struct Post {
    queue: AxisQueue,
    kills: KillInputs,
    killed: bool,
}

impl Model for Post {
    ghost use Rattle.queue.specs.Sound.{Sound};
    ghost use Rattle.model.specs.Machine as M;

    ghost Value = { M.Post };

    ghost view = { λ p. record { queue = p.queue; kills = p.kills; killed = p.killed } };

    ghost invariant = { λ p. Sound p.queue };
}

impl Post {
    pub fn new() -> Post
        ensures is { result ≡ blank }
        ensures sound { Sound result.queue }
    {
        Post {
            queue: AxisQueue::new(),
            kills: KillInputs::none(),
            killed: false,
        }
    }

    /// Neither an entry nor a plan is left; tells how many entries were dropped.
    pub fn clear(&mut self) -> usize
        ensures says { result ≡ length (waiting self.old) }
        ensures does { self.new ≡ emptied self.old }
        ensures sound { Sound self.old.queue × Sound self.new.queue }
    {
        self.queue.clear()
    }

    /// As cleared, and killed.
    pub fn kill(&mut self) -> usize
        ensures says { result ≡ length (waiting self.old) }
        ensures does { self.new ≡ marked true (emptied self.old) }
        ensures sound { Sound self.old.queue × Sound self.new.queue }
    {
        let dropped = self.clear();
        self.killed = true;
        dropped
    }

    /// Killed no longer.
    pub fn free(&mut self)
        ensures does { self.new ≡ marked false self.old }
        ensures sound { Sound self.old.queue × Sound self.new.queue }
    {
        self.killed = false;
    }

    /// For arming under a word: nothing waits, entries are counted from the start again, and the axis is killed where the word hits it.
    pub fn arm(&mut self, word: u16)
        ensures does { self.new ≡ armed word self.old }
        ensures sound { Sound self.old.queue × Sound self.new.queue }
    {
        self.queue.rearm();
        self.killed = self.kills.is_hit(word);
    }

    pub fn kills(&self) -> KillInputs
        ensures is { result ≡ self.now.kills }
        ensures sound { Sound self.now.queue }
    {
        self.kills
    }

    pub fn set_kills(&mut self, kills: KillInputs)
        ensures does { self.new ≡ rekilled self.old kills }
        ensures sound { Sound self.old.queue × Sound self.new.queue }
    {
        self.kills = kills;
    }

    pub fn is_killed(&self) -> bool
        ensures is { result ≡ self.now.killed }
        ensures sound { Sound self.now.queue }
    {
        self.killed
    }

    /// Whether a kill input stands at its kill level in the word.
    pub fn is_hit(&self, word: u16) -> bool
        ensures is { result ≡ hit self.now.kills word }
        ensures sound { Sound self.now.queue }
    {
        self.kills.is_hit(word)
    }

    /// The entry that is executed next.
    pub fn head(&self) -> Option<Head>
        ensures says { result ≡ head_of self.now.queue }
        ensures ranged { IfSome result (λ h. InRange h.entry.operand) }
        ensures sound { Sound self.now.queue }
    {
        self.queue.head()
    }

    pub fn plan(&self) -> Option<i64>
        ensures is { result ≡ self.now.queue.plan }
        ensures sound { Sound self.now.queue }
    {
        self.queue.plan()
    }

    pub fn free_places(&self) -> usize
        ensures is { result ≡ free self.now.queue }
        ensures sound { Sound self.now.queue }
    {
        self.queue.free_places()
    }

    /// The head leaves the queue, and the plan becomes `plan`.
    pub fn step(&mut self, plan: Option<i64>)
        ensures does { self.new ≡ with_queue self.old (replanned (taken self.old.queue) plan) }
        ensures sound { Sound self.old.queue × Sound self.new.queue }
    {
        let _ = self.queue.take();
        self.queue.set_plan(plan);
    }

    /// Places the batch, where it finds room.
    pub fn place(&mut self, batch: Batch)
        ensures does { self.new ≡ with_queue self.old (placed self.old.queue batch) }
        ensures sound { Sound self.old.queue × Sound self.new.queue }
    {
        let _ = self.queue.place(batch);
    }

    pub fn lacks_places(&self, batch: Batch) -> bool
        ensures is { result ≡ lacks_places self.now.queue batch }
        ensures sound { Sound self.now.queue }
    {
        self.queue.lacks_places(batch)
    }

    pub fn lacks_count(&self, batch: Batch) -> bool
        ensures is { result ≡ lacks_count self.now.queue batch }
        ensures sound { Sound self.now.queue }
    {
        self.queue.lacks_count(batch)
    }
}
