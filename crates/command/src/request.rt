//! What a text asks for, and how it is refused.
ghost use Rattle.std.specs.Prelude.{◌≡◌, ◌+◌, take};
ghost use Rattle.drive.specs.Axes.{index};
ghost use Rattle.command.specs.Requests.{alone, bare, every, enters, batch, batch_on, clears_on, notice, recorded};

use drive::axis::{AXES, Axis};
use queue::entry::{Batch, Code, Entry};
use text::Decimal;

/// The port that a text came in by: the mount's or the bench's.
#[derive(Clone, Copy, Debug, PartialEq, Eq)]
pub enum Port {
    M,
    P,
}

/// What port M's commands go to: one axis, or all of them (AA).
#[derive(Clone, Copy, Debug, PartialEq, Eq)]
pub enum Selection {
    One(Axis),
    All,
}

/// What is set of one axis and decides how its numbers are read.
#[derive(Clone, Copy)]
pub struct Settings {
    /// Counts to one user unit, where units are on.
    pub units: Option<Decimal>,
}

/// What the reading of a text depends on besides the text.
#[derive(Clone, Copy)]
pub struct Context<'a> {
    /// Port M's selection.
    pub selection: Selection,
    /// The axis of port P's last accepted command.
    pub last: Axis,
    /// The settings of each axis, in order; an axis beyond them has its units off.
    pub settings: &'a [Settings],
}

/// For each axis its operand, or none where the command does not name the axis. What a command that takes no operand has there means nothing.
pub type Operands = [Option<i64>; AXES];

/// What a text asks for.
#[derive(Clone, Copy)]
pub enum Request {
    /// Port M's selection changes.
    Select(Selection),
    /// Each named axis takes an entry of this code, and a GO after it where `then_go` says so.
    Place {
        code: Code,
        operands: Operands,
        then_go: bool,
    },
    /// Each named axis is cleared, and halted where `halt` says so.
    Clear {
        operands: Operands,
        halt: bool,
    },
    /// The positions are told.
    Positions(Selection),
    /// The free command places are told.
    Places(Selection),
    /// The error record is told, and emptied.
    ErrorRecord,
}

/// A request, with the axis that is port P's last one if the command is taken.
#[derive(Clone, Copy)]
pub struct Command {
    pub request: Request,
    pub last: Axis,
}

/// What Set is asked for.
#[derive(Clone, Copy)]
pub enum Setting {
    /// Set's own axis changes.
    Select(Axis),
    /// Units on, with this factor.
    UnitsOn(Decimal),
    /// Units off.
    UnitsOff,
    /// The contact `bit` is a kill input, which kills at this level.
    KillInput { bit: u8, level: bool },
    /// The axis has no kill input any more.
    NoKillInputs,
}

/// Why a text is refused; the place is that of a byte of the text, or the text's length.
#[derive(Clone, Copy, Debug, PartialEq, Eq)]
pub enum Refusal {
    /// The text is empty or too long.
    Length,
    /// No such name, or no such axis on port P.
    Name(usize),
    /// Not valid in AA.
    Mode,
    /// A byte that does not fit, or one missing.
    Form(usize),
    /// A number that is out of range.
    Range(usize),
}

/// What a host is told of a refusal: numbers are its format. The axis is its number, or 0 where none is to blame.
#[derive(Clone, Copy, Debug, PartialEq, Eq)]
pub struct Notice {
    pub number: u8,
    pub place: usize,
    pub axis: usize,
}

/// One axis is named.
#[tactic(auto, unfolding(drive::specs::Axes::axes))]
pub(crate) fn alone(axis: Axis, operand: i64) -> Operands
    ensures { result ≡ alone axis operand }
{
    let mut operands = [None; AXES];
    operands[axis.index()] = Some(operand);
    operands
}

/// One axis is named, with no operand.
pub(crate) fn bare(axis: Axis) -> Operands
    ensures { result ≡ bare axis }
{
    alone(axis, 0)
}

/// Every axis is named.
#[tactic(auto, unfolding(drive::specs::Axes::axes))]
pub(crate) fn every() -> Operands
    ensures { result ≡ every }
{
    [Some(0); AXES]
}

/// The named axes take an entry of the code.
pub(crate) fn enters(code: Code, operands: Operands) -> Request
    ensures { result ≡ enters code operands }
{
    Request::Place {
        code,
        operands,
        then_go: false,
    }
}

/// The text through the byte at `at`, or the whole text where it has no such byte.
fn through(text: &[u8], at: usize) -> &[u8]
    ensures { result.now ≡ take (at + 1) text.now }
{
    text.get(..=at).unwrap_or(text)
}

/// An entry, and a GO after it or not.
fn batch_of(code: Code, then_go: bool, operand: i64) -> Batch
    ensures { result ≡ batch code then_go operand }
{
    let entry = Entry { code, operand };
    let go = Entry {
        code: Code::Go,
        operand: 0,
    };
    if then_go {
        Batch::Two(entry, go)
    } else {
        Batch::One(entry)
    }
}

impl Request {
    /// What is placed on an axis.
    pub fn batch(&self, axis: Axis) -> Option<Batch>
        ensures { result ≡ batch_on self.now (index axis) }
    {
        match self {
            Request::Place {
                code,
                operands,
                then_go,
            } => {
                let operand = operands[axis.index()]?;
                Some(batch_of(*code, *then_go, operand))
            }
            _ => None,
        }
    }

    /// Whether an axis is cleared.
    pub fn clears(&self, axis: Axis) -> bool
        ensures { result ≡ clears_on self.now (index axis) }
    {
        match self {
            Request::Clear { operands, .. } => operands[axis.index()].is_some(),
            _ => false,
        }
    }
}

impl Refusal {
    /// What a host is told of it: a number, as the rule book has it.
    pub fn notice(self) -> Notice
        ensures { result ≡ notice self }
    {
        let (number, place) = match self {
            Refusal::Length => (4, 0),
            Refusal::Name(at) => (5, at),
            Refusal::Mode => (6, 0),
            Refusal::Form(at) => (7, at),
            Refusal::Range(at) => (8, at),
        };
        Notice {
            number,
            place,
            axis: 0,
        }
    }

    /// What the error record takes of the refused text.
    pub fn recorded(self, text: &[u8]) -> &[u8]
        ensures { result.now ≡ recorded self text.now }
    {
        match self {
            Refusal::Length => &[],
            Refusal::Name(at) | Refusal::Form(at) => through(text, at),
            Refusal::Mode | Refusal::Range(_) => text,
        }
    }
}
