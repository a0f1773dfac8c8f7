//! Texts of port M.
ghost use Rattle.std.specs.Prelude.{◌≡◌};
ghost use Rattle.command.specs.Mount.{follows, taking, mount};

use crate::operands::{read_amount, read_operands, read_whole, units_of};
use crate::request::{Operands, Refusal, Request, Selection, Settings, alone, bare, enters, every};
use crate::tail::Tail;
use drive::axis::Axis;
use names::MountName;
use queue::entry::Code;

/// What follows a name, and the request that it makes.
/// A value, and no closure, so that the table of port M is one row for each case.
#[derive(Clone, Copy)]
pub(crate) enum Operand {
    Nothing(Request),
    /// A number in the units of the axis.
    Amount(Code, Axis),
    /// A whole number from 0 to 15.
    Bit(Code, Axis),
    /// A list of numbers, each in the units of its axis.
    Amounts(Code),
    /// A list of whole numbers, which only name the axes of a GO.
    GoList,
    /// The same, of a KS.
    KillList,
    /// The name is not valid in AA.
    Invalid,
}

/// The name selects.
fn selects(selection: Selection) -> Operand
    ensures { result ≡ Operand.Nothing (Request.Select selection) }
{
    Operand::Nothing(Request::Select(selection))
}

/// The name clears axes, and halts them or not.
fn clears(operands: Operands, halt: bool) -> Operand
    ensures { result ≡ Operand.Nothing (Request.Clear operands halt) }
{
    Operand::Nothing(Request::Clear { operands, halt })
}

/// The table of port M.
fn follows(name: MountName, selection: Selection) -> Operand
    ensures { result ≡ follows name selection }
{
    // A function from a name to its axis would hold the same eight rows.
    match (name, selection) {
        (MountName::Ax, _) => selects(Selection::One(Axis::X)),
        (MountName::Ay, _) => selects(Selection::One(Axis::Y)),
        (MountName::Az, _) => selects(Selection::One(Axis::Z)),
        (MountName::At, _) => selects(Selection::One(Axis::T)),
        (MountName::Au, _) => selects(Selection::One(Axis::U)),
        (MountName::Av, _) => selects(Selection::One(Axis::V)),
        (MountName::Ar, _) => selects(Selection::One(Axis::R)),
        (MountName::As, _) => selects(Selection::One(Axis::S)),
        (MountName::Aa, _) => selects(Selection::All),
        (MountName::Ma, Selection::One(axis)) => Operand::Amount(Code::Ma, axis),
        (MountName::Ma, Selection::All) => Operand::Amounts(Code::Ma),
        (MountName::Mr, Selection::One(axis)) => Operand::Amount(Code::Mr, axis),
        (MountName::Mr, Selection::All) => Operand::Amounts(Code::Mr),
        (MountName::Go, Selection::One(axis)) => Operand::Nothing(enters(Code::Go, bare(axis))),
        (MountName::Go, Selection::All) => Operand::GoList,
        (MountName::Bh, Selection::One(axis)) => Operand::Bit(Code::Bh, axis),
        (MountName::Bh, Selection::All) => Operand::Invalid,
        (MountName::Bl, Selection::One(axis)) => Operand::Bit(Code::Bl, axis),
        (MountName::Bl, Selection::All) => Operand::Invalid,
        (MountName::Sw, Selection::One(axis)) => Operand::Bit(Code::Sw, axis),
        (MountName::Sw, Selection::All) => Operand::Invalid,
        (MountName::Bw, Selection::One(axis)) => Operand::Bit(Code::Bw, axis),
        (MountName::Bw, Selection::All) => Operand::Invalid,
        (MountName::Kl, _) => clears(every(), true),
        (MountName::Ks, Selection::One(axis)) => clears(bare(axis), true),
        (MountName::Ks, Selection::All) => Operand::KillList,
        (MountName::Fl, Selection::One(axis)) => clears(bare(axis), false),
        (MountName::Fl, Selection::All) => Operand::Invalid,
        (MountName::Rp, _) => Operand::Nothing(Request::Positions(selection)),
        (MountName::Rqc, _) => Operand::Nothing(Request::Places(selection)),
        (MountName::HashEr, _) => Operand::Nothing(Request::ErrorRecord),
    }
}

/// The request that the operand makes.
fn read_operand(operand: Operand, rest: Tail, settings: &[Settings]) -> Result<Request, Refusal>
    ensures { result ≡ taking settings.now operand rest.entry.at rest.entry.bytes.now }
{
    match operand {
        Operand::Nothing(request) => {
            rest.end()?;
            Ok(request)
        }
        Operand::Amount(code, axis) => {
            let counts = read_amount(rest, units_of(settings, axis))?;
            Ok(enters(code, alone(axis, counts)))
        }
        Operand::Bit(code, axis) => {
            let bit = read_whole(rest, 0, 15)?;
            Ok(enters(code, alone(axis, bit)))
        }
        Operand::Amounts(code) => Ok(enters(code, read_operands(rest, settings)?)),
        Operand::GoList => Ok(enters(Code::Go, read_operands(rest, &[])?)),
        Operand::KillList => Ok(Request::Clear {
            operands: read_operands(rest, &[])?,
            halt: true,
        }),
        Operand::Invalid => Err(Refusal::Mode),
    }
}

/// What a text on port M asks for.
pub(crate) fn read_mount(
    text: &[u8],
    selection: Selection,
    settings: &[Settings],
) -> Result<Request, Refusal>
    ensures { result ≡ mount selection settings.now text.now }
{
    let (name, rest) = Tail::whole(text).name()?;
    read_operand(follows(name, selection), rest, settings)
}
