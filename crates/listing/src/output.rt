//! What is printed of the outcome of a call.
ghost use Rattle.std.specs.Prelude.{◌++◌, codes};
ghost use Rattle.text.specs.Writing.{digits};
ghost use Rattle.model.specs.Refusals.{noticed};
ghost use Rattle.model.specs.Controller.{dropped_all};
ghost use Rattle.listing.specs.Writing.{Adds};
ghost use Rattle.model.specs.Seen.{of_command, of_sheet, of_set};
ghost use Rattle.listing.specs.Printing.{row_line, row_lines, answer_line, notice_line, printed};

use command::request::Notice;
use drive::axis::Axis;
use model::refusal::Refusal;
use model::row::Row;
use std::alloc::AllocError;

/// The axis's letter and the row's numbers; nothing of a row of kind 0.
// `write!` to a `Vec<u8>` answers an `io::Error`, so each line is made by `format!` and then added.
// Adding takes one line: a function of its own, with its clause, would be longer than the five.
fn print_row(out: &mut Vec<u8>, axis: Axis, row: Row) -> Result<(), AllocError>
    ensures { Adds result out.old out.new (row_line axis row) }
{
    let Row {
        kind,
        count,
        serial,
        code,
        operand,
    } = row;
    if kind == 0 {
        return Ok(());
    }
    let line = format!(in *out.allocator(); "{axis} {kind} {count} {serial} {code} {operand}\n")?;
    out.extend_from_slice(line.as_bytes())
}

/// The rows of the axes, in order; nothing of one that the sheet has not.
fn print_rows(out: &mut Vec<u8>, sheet: &[Row]) -> Result<(), AllocError>
    ensures { Adds result out.old out.new (row_lines sheet.now) }
{
    for (axis, row) in Axis::ALL.iter().zip(sheet) {
        print_row(out, *axis, *row)?;
    }
    Ok(())
}

/// Nothing where there is no answer.
fn print_answer(out: &mut Vec<u8>, answer: &[u8]) -> Result<(), AllocError>
    ensures { Adds result out.old out.new (answer_line answer.now) }
{
    if answer.is_empty() {
        return Ok(());
    }
    out.extend_from_slice(b"= ")?;
    out.extend_from_slice(answer)
}

fn print_refusal(out: &mut Vec<u8>, refusal: Refusal) -> Result<(), AllocError>
    ensures { Adds result out.old out.new (notice_line (noticed refusal)) }
{
    let Notice {
        number,
        place,
        axis,
    } = refusal.notice();
    let line = format!(in *out.allocator(); "! {number} {place} {axis}\n")?;
    out.extend_from_slice(line.as_bytes())
}

/// A space, and the number.
fn print_count(out: &mut Vec<u8>, count: usize) -> Result<(), AllocError>
    ensures { Adds result out.old out.new (codes " " ++ digits count) }
{
    let word = format!(in *out.allocator(); " {count}")?;
    out.extend_from_slice(word.as_bytes())
}

// The next three each match on the reply: a shared function would take a closure for `Ok`, and be longer.

/// Of a Command: it returns how many bytes of its block are the answer.
pub fn print_command(
    out: &mut Vec<u8>,
    reply: Result<usize, Refusal>,
    sheet: &[Row],
    block: &[u8],
) -> Result<(), AllocError>
    ensures { Adds result out.old out.new (printed (of_command reply sheet.now block.now)) }
{
    match reply {
        Ok(len) => {
            print_rows(out, sheet)?;
            print_answer(out, block.get(..len).unwrap_or(block))
        }
        Err(refusal) => print_refusal(out, refusal),
    }
}

/// Of a Sample or a Step.
pub fn print_sheet(
    out: &mut Vec<u8>,
    reply: Result<(), Refusal>,
    sheet: &[Row],
) -> Result<(), AllocError>
    ensures { Adds result out.old out.new (printed (of_sheet reply sheet.now)) }
{
    match reply {
        Ok(()) => print_rows(out, sheet),
        Err(refusal) => print_refusal(out, refusal),
    }
}

/// Of a Set.
pub fn print_set(out: &mut Vec<u8>, reply: Result<(), Refusal>) -> Result<(), AllocError>
    ensures { Adds result out.old out.new (printed (of_set reply)) }
{
    match reply {
        Ok(()) => Ok(()),
        Err(refusal) => print_refusal(out, refusal),
    }
}

/// Of a Park: how many entries of each axis were dropped.
pub fn print_park(out: &mut Vec<u8>, dropped: &[usize]) -> Result<(), AllocError>
    ensures { Adds result out.old out.new (printed (dropped_all dropped.now)) }
{
    out.push(b'-')?;
    for count in dropped {
        print_count(out, *count)?;
    }
    out.push(b'\n')?;
    Ok(())
}
