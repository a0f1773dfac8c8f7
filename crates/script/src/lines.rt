//! The lines of a script.
ghost use Rattle.std.specs.Prelude.{◌≡◌, replicate, pos, IfOk, vec_items};
ghost use Rattle.std.specs.Option.{option_map};
ghost use Rattle.drive.specs.Axes.{axes};
ghost use Rattle.listing.specs.Lines.{seen, by_front, alone};
ghost use Rattle.script.specs.Scripts.{asks, asked, readings, stepping, of_input, own_rows, script};

use crate::drives::{DriveChoice, read_drive};
use crate::numbers::{read_numbers, size_of};
use crate::words::{after, split};
use command::request::Port;
use drive::axis::AXES;
use drive::health::Health;
use listing::{Line, read_byte, read_line, read_word};
use std::alloc::{AllocError, Global};

/// The most rows of a sheet that is lent.
const MOST_ROWS: usize = 64;

/// The most bytes of an answer block that is lent.
const MOST_BYTES: usize = 4096;

/// What a line asks for.
// No `impl Model`: an enum cannot have one.
#[derive(Drop)]
pub enum ScriptLine<'a> {
    /// A new controller over a drive.
    New(DriveChoice),
    /// A text to Set.
    Set(&'a [u8]),
    /// Arm, with the first sample.
    Arm(u16),
    Park,
    /// A text that comes in by a port.
    Command(Port, &'a [u8]),
    /// A word of contacts.
    Sample(u16),
    /// One step of time.
    Step { health: Health, readings: Vec<i64> },
    /// The sheet lent to later calls has so many rows.
    Rows(usize),
    /// The answer block lent to later calls has so many bytes.
    Answer(usize),
    Show,
}

/// What is asked for, where nothing more stands in the line.
fn alone<'a>(line: ScriptLine<'a>, rest: &[u8]) -> Option<ScriptLine<'a>>
    ensures { asked result ≡ alone (asks line.entry) rest.now }
{
    rest.is_empty().then_some(line)
}

/// The lines that `axes` does not have, but for a step with readings.
fn read_own(line: &[u8]) -> Option<ScriptLine<'_>>
    ensures { asked result ≡ by_front own_rows line.now }
{
    if let Some(drive) = after(line, b"new ") {
        return Some(ScriptLine::New(read_drive(drive)?));
    }
    if let Some(text) = after(line, b"set ") {
        return Some(ScriptLine::Set(text));
    }
    if let Some(word) = after(line, b"arm ") {
        return Some(ScriptLine::Arm(read_word(word)?));
    }
    if let Some(rows) = after(line, b"rows ") {
        return Some(ScriptLine::Rows(size_of(rows, MOST_ROWS)?));
    }
    if let Some(bytes) = after(line, b"answer ") {
        return Some(ScriptLine::Answer(size_of(bytes, MOST_BYTES)?));
    }
    if let Some(rest) = after(line, b"park") {
        return alone(ScriptLine::Park, rest);
    }
    alone(ScriptLine::Show, after(line, b"show")?)
}

/// The readings after the health byte; there may be none.
fn read_readings(heap: Global, text: Option<&[u8]>) -> Result<Option<Vec<i64>>, AllocError>
    ensures { IfOk result (λ o. option_map vec_items o ≡ readings (option_map (λ x. x.now) text.entry)) }
{
    match text {
        Some(text) => read_numbers(heap, text),
        None => Ok(Some(Vec::new(heap))),
    }
}

/// What follows `T `.
fn read_step<'a>(heap: Global, text: &[u8]) -> Result<Option<ScriptLine<'a>>, AllocError>
    ensures { IfOk result (λ o. asked o ≡ stepping text.now) }
{
    let (health, readings) = split(text);
    let Some(bits) = read_byte(health) else {
        return Ok(None);
    };
    let health = Health { bits };
    Ok(read_readings(heap, readings)?.map(|readings| ScriptLine::Step { health, readings }))
}

/// A reading of 0 for each axis.
#[tactic(auto, unfolding(drive::specs::Axes::axes))]
fn no_readings(heap: Global) -> Result<Vec<i64>, AllocError>
    ensures { IfOk result (λ v. v.items ≡ replicate axes (pos 0)) }
{
    Vec::from_slice(heap, &[0; AXES])
}

/// A line that `axes` has too.
fn of_line(heap: Global, line: Line<'_>) -> Result<ScriptLine<'_>, AllocError>
    ensures { IfOk result (λ s. asks s ≡ of_input (seen line.entry)) }
{
    match line {
        Line::Command(port, text) => Ok(ScriptLine::Command(port, text)),
        Line::Sample(word) => Ok(ScriptLine::Sample(word)),
        Line::Step => Ok(ScriptLine::Step {
            health: Health { bits: 0xff },
            readings: no_readings(heap)?,
        }),
    }
}

/// What a line without its line feed asks for; none where it is none of the lines told.
pub fn read_script(heap: Global, line: &[u8]) -> Result<Option<ScriptLine<'_>>, AllocError>
    ensures { IfOk result (λ o. asked o ≡ script line.now) }
{
    if let Some(known) = read_line(line) {
        return Ok(Some(of_line(heap, known)?));
    }
    match after(line, b"T ") {
        Some(text) => read_step(heap, text),
        None => Ok(read_own(line)),
    }
}
