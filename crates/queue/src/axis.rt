//! One axis's queue.
ghost use Rattle.std.specs.Prelude.{◌≡◌, [], ◌∷◌, length, IfSome, OnOk};
ghost use Rattle.queue.specs.Entries.{settled, listed, InRange};
ghost use Rattle.queue.specs.Views.{refusal_number, fresh, extended, Roomy, placed, verdict, lacks_commands, lacks_arguments, lacks_places, lacks_count, head_of, taken, cleared, replanned, free};
ghost use Rattle.queue.specs.Sound.{Sound};

use crate::entry::{Batch, Code, Entry};
use crate::ring::Ring;
use std::marker::Model;

/// How many commands can wait.
pub const COMMAND_PLACES: usize = 128;

/// How many arguments can wait.
pub const ARGUMENT_PLACES: usize = 64;

/// How many entries an axis takes in at most, from one arming to the next.
pub const MOST_ENTRIES: u32 = 1_000_000_000;

/// The entries that wait on one axis, its plan, and how many entries it has taken in since arming.
/// The codes stand in one ring, and the arguments of those codes that take one in another.
#[derive(Drop)]
pub struct AxisQueue {
    commands: Ring<Code, COMMAND_PLACES>,
    arguments: Ring<i64, ARGUMENT_PLACES>,
    plan: Option<i64>,
    count: u32,
}

impl Model for AxisQueue {
    ghost use Rattle.queue.specs.Views.{View, seen};
    ghost use Rattle.queue.specs.Sound.{Tied};

    ghost Value = { View };

    ghost view = { λ q. seen q.commands q.arguments q.plan q.count };

    ghost invariant = { λ q. Tied q.commands q.arguments q.plan q.count };
}

/// The entry that is executed next, with its number among the axis's entries since arming.
#[derive(Clone, Copy, Debug, PartialEq, Eq)]
pub struct Head {
    pub entry: Entry,
    pub serial: u32,
}

/// Why a batch is not placed.
#[derive(Clone, Copy, Debug, PartialEq, Eq)]
pub enum Refusal {
    /// Too few command places are free.
    Commands,
    /// Too few argument places are free, or an argument is no count.
    Arguments,
    /// The axis would take in more than the most entries.
    Count,
}

impl Refusal {
    /// The number under which a command's refusal is told.
    pub fn number(self) -> u8
        ensures { result ≡ refusal_number self }
    {
        match self {
            Refusal::Commands | Refusal::Arguments => 10,
            Refusal::Count => 11,
        }
    }
}

#[tactic(auto, using(crate::proofs::Waits::waiting))]
impl AxisQueue {
    pub fn new() -> AxisQueue
        ensures is { result ≡ fresh }
        ensures sound { Sound result }
    {
        AxisQueue {
            commands: Ring::new(Code::Ws),
            arguments: Ring::new(0),
            plan: None,
            count: 0,
        }
    }

    /// Whether too few command or argument places are free, or an argument is no count.
    pub fn lacks_places(&self, batch: Batch) -> bool
        ensures is { result ≡ lacks_places self.now batch }
        ensures sound { Sound self.now }
    {
        self.lacks_commands(batch) || self.lacks_arguments(batch)
    }

    /// Whether the batch would have the axis take in more than the most entries.
    pub fn lacks_count(&self, batch: Batch) -> bool
        ensures is { result ≡ lacks_count self.now batch }
        ensures sound { Sound self.now }
    {
        batch.len() as u32 > MOST_ENTRIES - self.count
    }

    /// Places the batch behind what waits: all of it, or nothing where it is refused.
    pub fn place(&mut self, batch: Batch) -> Result<(), Refusal>
        ensures says { result ≡ verdict self.old batch }
        ensures does { self.new ≡ placed self.old batch }
        ensures sound { Sound self.old × Sound self.new }
    {
        self.room_for(batch)?;
        match batch {
            Batch::One(entry) => self.append(entry),
            Batch::Two(first, second) => {
                self.append(first);
                self.append(second);
            }
        }
        Ok(())
    }

    /// The entry that is executed next.
    pub fn head(&self) -> Option<Head>
        ensures says { result ≡ head_of self.now }
        ensures ranged { IfSome result (λ h. InRange h.entry.operand) }
        ensures sound { Sound self.now }
    {
        let code = self.commands.front()?;
        let operand = if code.takes_argument() {
            self.arguments.front().unwrap_or(0)
        } else {
            0
        };
        let serial = self.count - self.commands.len() as u32 + 1;
        Some(Head {
            entry: Entry { code, operand },
            serial,
        })
    }

    /// Takes out the entry that is executed next.
    pub fn take(&mut self) -> Option<Head>
        ensures says { result ≡ head_of self.old }
        ensures does { self.new ≡ taken self.old }
        ensures ranged { IfSome result (λ h. InRange h.entry.operand) }
        ensures sound { Sound self.old × Sound self.new }
    {
        let head = self.head()?;
        let takes = head.entry.code.takes_argument();
        self.commands.pop_front();
        if takes {
            self.arguments.pop_front();
        }
        Some(head)
    }

    /// Drops every entry and the plan; tells how many entries were dropped.
    pub fn clear(&mut self) -> usize
        ensures says { result ≡ length self.old.entries }
        ensures does { self.new ≡ cleared self.old }
        ensures sound { Sound self.old × Sound self.new }
    {
        let dropped = self.commands.len();
        self.commands.clear();
        self.arguments.clear();
        self.plan = None;
        dropped
    }

    /// Clears, and counts from the start again.
    pub fn rearm(&mut self)
        ensures does { self.new ≡ fresh }
        ensures sound { Sound self.old × Sound self.new }
    {
        let _ = self.clear();
        self.count = 0;
    }

    /// How many command places are free.
    pub fn free_places(&self) -> usize
        ensures is { result ≡ free self.now }
        ensures sound { Sound self.now }
    {
        COMMAND_PLACES - self.commands.len()
    }

    pub fn plan(&self) -> Option<i64>
        ensures is { result ≡ self.now.plan }
        ensures sound { Sound self.now }
    {
        self.plan // a copy
    }

    pub fn set_plan(&mut self, plan: Option<i64>)
        ensures does { self.new ≡ replanned self.old plan }
        ensures sound { Sound self.old × Sound self.new }
    {
        self.plan = plan;
    }

    fn lacks_commands(&self, batch: Batch) -> bool
        ensures is { result ≡ lacks_commands self.now batch }
        ensures sound { Sound self.now }
    {
        batch.len() > self.free_places()
    }

    fn lacks_arguments(&self, batch: Batch) -> bool
        ensures { result ≡ lacks_arguments self.now batch }
    {
        batch.arguments() > ARGUMENT_PLACES - self.arguments.len() || !batch.in_range()
    }

    /// Whether the batch is placed, or why not.
    fn room_for(&self, batch: Batch) -> Result<(), Refusal>
        ensures says { result ≡ verdict self.now batch }
        ensures roomy { OnOk result (Roomy self.now (listed batch)) }
        ensures sound { Sound self.now }
    {
        if self.lacks_commands(batch) {
            return Err(Refusal::Commands);
        }
        if self.lacks_arguments(batch) {
            return Err(Refusal::Arguments);
        }
        if self.lacks_count(batch) {
            return Err(Refusal::Count);
        }
        Ok(())
    }

    /// Places one entry, for which there is room.
    fn append(&mut self, entry: Entry)
        requires { Roomy self.old (settled entry ∷ []) }
        ensures does { self.new ≡ extended self.old (settled entry ∷ []) }
        ensures sound { Sound self.new }
    {
        self.commands.push_back(entry.code);
        self.count += 1;
        if entry.code.takes_argument() {
            self.arguments.push_back(entry.operand);
        }
    }
}
