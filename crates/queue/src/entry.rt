//! The entries of an axis's queue: a code and its operand.
ghost use Rattle.std.specs.Prelude.{◌≡◌, [], ◌∷◌, length};
ghost use Rattle.queue.specs.Entries.{code_number, takes, settled, listed, argument_count, in_range, ranged};

use std::fmt;

/// The greatest size of a count; an argument place holds a count.
pub const GREATEST_COUNT: i64 = 2_147_483_646;

/// What an entry asks for when it is executed.
#[derive(Clone, Copy, Debug, PartialEq, Eq)]
pub enum Code {
    /// The plan is the operand.
    Ma = 1,
    /// The plan is the drive's target plus the operand.
    Mr = 2,
    /// The plan, if there is one, becomes the target and is dropped.
    Go = 3,
    /// The output bit that the operand names becomes 1.
    Bh = 4,
    /// The output bit that the operand names becomes 0.
    Bl = 5,
    /// Waits until the sampled bit that the operand names is 1.
    Sw = 6,
    /// Waits until the sampled bit that the operand names is 0.
    Bw = 7,
    /// Does nothing.
    Ws = 8,
}

impl Code {
    /// The number by which a host reads the code.
    pub fn number(self) -> u8
        ensures { result ≡ code_number self }
    {
        self as u8
    }

    pub fn takes_argument(self) -> bool
        ensures { result ≡ takes self }
    {
        !matches!(self, Code::Go | Code::Ws)
    }
}

/// The two letters of the code.
impl fmt::Display for Code {
    ghost use Rattle.std.specs.Prelude.{Some};
    ghost use Rattle.queue.specs.Entries.{code_letters};

    ghost output = { λ code. Some (code_letters code) };

    fn fmt<W: fmt::Write>(&self, f: &mut fmt::Formatter<W>) -> fmt::Result {
        f.write_str(match self {
            Code::Ma => "MA",
            Code::Mr => "MR",
            Code::Go => "GO",
            Code::Bh => "BH",
            Code::Bl => "BL",
            Code::Sw => "SW",
            Code::Bw => "BW",
            Code::Ws => "WS",
        })
    }
}

/// A code with its operand, which means nothing where the code takes no argument.
/// By a rule of the project codes and operands wait in rings of their own, so the code does not hold its operand.
#[derive(Clone, Copy, Debug, PartialEq, Eq)]
pub struct Entry {
    pub code: Code,
    pub operand: i64,
}

impl Entry {
    /// How many arguments it has.
    fn arguments(self) -> usize
        ensures { result ≡ argument_count (self ∷ []) }
    {
        usize::from(self.code.takes_argument())
    }

    /// Whether its argument, if it has one, is in the range of counts.
    fn in_range(self) -> bool
        ensures { result ≡ in_range (settled self).operand }
    {
        !self.code.takes_argument() || (-GREATEST_COUNT..=GREATEST_COUNT).contains(&self.operand)
    }
}

/// What one command places on one axis. Each method is a match: a loop over one or two entries would be no plainer.
#[derive(Clone, Copy, Debug, PartialEq, Eq)]
pub enum Batch {
    One(Entry),
    Two(Entry, Entry),
}

impl Batch {
    /// How many entries it has.
    pub fn len(self) -> usize
        ensures { result ≡ length (listed self) }
    {
        match self {
            Batch::One(_) => 1,
            Batch::Two(_, _) => 2,
        }
    }

    /// How many of its entries take an argument.
    pub(crate) fn arguments(self) -> usize
        ensures { result ≡ argument_count (listed self) }
    {
        match self {
            Batch::One(entry) => entry.arguments(),
            Batch::Two(first, second) => first.arguments() + second.arguments(),
        }
    }

    /// Whether all its arguments are in the range of counts.
    pub(crate) fn in_range(self) -> bool
        ensures { result ≡ ranged (listed self) }
    {
        match self {
            Batch::One(entry) => entry.in_range(),
            Batch::Two(first, second) => first.in_range() && second.in_range(),
        }
    }
}
