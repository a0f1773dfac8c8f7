//! The range of numbers and of lists of them after a name.
ghost use Rattle.std.specs.Prelude.{◌≡◌, false, is_some};
ghost use Rattle.drive.specs.Axes.{index};
ghost use Rattle.command.specs.Operands.{units_of, pointed, in_range, measured, ranged, kept, operand, operands, amount, listed};

use crate::fields::{Field, Fields, read_list, read_single};
use crate::request::{Operands, Refusal, Settings};
use crate::tail::Tail;
use drive::axis::{AXES, Axis};
use text::{Decimal, LIMIT, Number};

/// The factor of an axis, where its units are on.
pub(crate) fn units_of(settings: &[Settings], axis: Axis) -> Option<Decimal>
    ensures { result ≡ units_of settings.now (index axis) }
{
    settings.get(axis.index())?.units
}

/// Whether its numbers may have a point.
pub(crate) fn allows_point(settings: &[Settings], axis: Axis) -> bool
    ensures { result ≡ pointed settings.now (index axis) }
{
    units_of(settings, axis).is_some()
}

/// The counts, where they are in range.
fn in_range(counts: i64) -> Option<i64>
    ensures { result ≡ in_range counts }
{
    (-LIMIT..=LIMIT).contains(&counts).then_some(counts)
}

/// The counts of a number, in the units of its axis.
fn measure(number: Number, units: Option<Decimal>) -> Option<i64>
    ensures { result ≡ measured units number }
{
    let decimal = number.decimal()?;
    match units {
        Some(factor) => in_range(decimal.scaled(factor)),
        None => Some(decimal.value()),
    }
}

/// The counts of a field, in the units of its axis.
fn judge_amount(field: Field, units: Option<Decimal>) -> Result<i64, Refusal>
    ensures { result ≡ kept field.at (measured units field.number) }
{
    measure(field.number, units).ok_or(Refusal::Range(field.at))
}

/// The operand of an axis: none where its field is empty.
fn judge(field: Option<Field>, units: Option<Decimal>) -> Result<Option<i64>, Refusal>
    ensures { result ≡ operand units field }
{
    field.map(|field| judge_amount(field, units)).transpose()
}

/// The operands of all axes.
fn judge_all(fields: Fields, settings: &[Settings]) -> Result<Operands, Refusal>
    ensures { result ≡ operands settings.now 0 fields }
{
    // No `try_map`: it does not promise that its error is the first one.
    let mut operands = [None; AXES];
    for axis in Axis::ALL {
        let i = axis.index();
        operands[i] = judge(fields[i], units_of(settings, axis))?;
    }
    Ok(operands)
}

/// One number, in the units of its axis.
pub(crate) fn read_amount(rest: Tail, units: Option<Decimal>) -> Result<i64, Refusal>
    ensures { result ≡ amount (is_some units) (measured units) rest.entry.at rest.entry.bytes.now }
{
    judge_amount(read_single(rest, units.is_some())?, units)
}

/// The value of a whole number from `low` to `high`.
pub(crate) fn judge_whole(field: Field, low: i64, high: i64) -> Result<i64, Refusal>
    ensures { result ≡ kept field.at (ranged low high field.number) }
{
    let value = field.number.value;
    if (low..=high).contains(&value) {
        Ok(value)
    } else {
        Err(Refusal::Range(field.at))
    }
}

/// One whole number, from `low` to `high`.
pub(crate) fn read_whole(rest: Tail, low: i64, high: i64) -> Result<i64, Refusal>
    ensures { result ≡ amount false (ranged low high) rest.entry.at rest.entry.bytes.now }
{
    judge_whole(read_single(rest, false)?, low, high)
}

/// A list of numbers, each in the units of its axis.
pub(crate) fn read_operands(rest: Tail, settings: &[Settings]) -> Result<Operands, Refusal>
    ensures { result ≡ listed settings.now rest.entry.at rest.entry.bytes.now }
{
    judge_all(read_list(rest, settings)?, settings)
}
