//! The form of numbers, and of lists of them, after a name.
ghost use Rattle.std.specs.Prelude.{◌≡◌, ◌≤◌, length, IfOk};
ghost use Rattle.drive.specs.Axes.{each};
ghost use Rattle.command.specs.Fields.{leading, single, slot, fields, any, list};
ghost use Rattle.command.specs.Operands.{pointed};

use crate::operands::allows_point;
use crate::request::{Refusal, Settings};
use crate::tail::Tail;
use drive::axis::{AXES, Axis};
use text::{Number, read_number};

/// For each axis its field, or none where it is empty.
pub(crate) type Fields = [Option<Field>; AXES];

/// A number, and the place of its first byte in the text.
#[derive(Clone, Copy)]
pub(crate) struct Field {
    pub(crate) at: usize,
    pub(crate) number: Number,
}

/// A field of a list, which may be empty, and how many bytes it takes.
#[derive(Clone, Copy)]
pub(crate) struct Slot {
    pub(crate) field: Option<Field>,
    pub(crate) width: usize,
}

/// The number at the front.
pub(crate) fn read_leading(rest: Tail, point: bool) -> Result<Field, Refusal>
    ensures value { result ≡ leading point rest.entry.at rest.entry.bytes.now }
    ensures inside { IfOk result (λ f. f.number.end ≤ length rest.entry.bytes.now) }
{
    let number = read_number(rest.bytes, point).map_err(|place| Refusal::Form(rest.at + place))?;
    Ok(Field {
        at: rest.at,
        number,
    })
}

/// One number and nothing more.
pub(crate) fn read_single(rest: Tail, point: bool) -> Result<Field, Refusal>
    ensures { result ≡ single point rest.entry.at rest.entry.bytes.now }
{
    let field = read_leading(rest, point)?;
    rest.skip(field.number.end).end()?;
    Ok(field)
}

/// One field of a list.
fn read_slot(rest: Tail, point: bool) -> Result<Slot, Refusal>
    ensures value { result ≡ slot point rest.entry.at rest.entry.bytes.now }
    ensures inside { IfOk result (λ s. s.width ≤ length rest.entry.bytes.now) }
{
    let field = match rest.bytes {
        [] | [b',', ..] => None,
        _ => Some(read_leading(rest, point)?),
    };
    Ok(Slot {
        field,
        width: field.map_or(0, |field| field.number.end),
    })
}

/// A field for each axis at the most, with commas between them.
fn read_fields(rest: Tail, settings: &[Settings]) -> Result<Fields, Refusal>
    ensures { result ≡ fields (each (pointed settings.now)) rest.entry.at rest.entry.bytes.now }
{
    // No `try_map`: the list may end before the last axis.
    let mut fields = [None; AXES];
    let mut left = rest;
    for axis in Axis::ALL {
        let slot = read_slot(left, allows_point(settings, axis))?;
        fields[axis.index()] = slot.field;
        left = left.skip(slot.width);
        match left.bytes {
            [] => return Ok(fields),
            [b',', ..] => left = left.skip(1),
            _ => return Err(Refusal::Form(left.at)),
        }
    }
    Err(Refusal::Form(left.at - 1))
}

/// Whether any of the fields holds a number.
fn names_any(fields: &[Option<Field>]) -> bool
    ensures { result ≡ any fields.now }
{
    fields.iter().any(|field| field.is_some())
}

/// A list that names at least one axis.
pub(crate) fn read_list(rest: Tail, settings: &[Settings]) -> Result<Fields, Refusal>
    ensures { result ≡ list (each (pointed settings.now)) rest.entry.at rest.entry.bytes.now }
{
    let fields = read_fields(rest, settings)?;
    if names_any(&fields) {
        Ok(fields)
    } else {
        Err(Refusal::Form(rest.at + rest.bytes.len()))
    }
}
