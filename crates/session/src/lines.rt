//! A line by line session with a live controller.
ghost use Rattle.std.specs.Prelude.{◌≡◌};
ghost use Rattle.model.specs.Controller as C;
ghost use Rattle.listing.specs.Lines.{seen, input};
ghost use Rattle.controller.specs.Views.{live_view};
ghost use Rattle.session.specs.Lines.{blank_block, on_input, on_line};
ghost use Rattle.session.specs.Prints.{Made};

use crate::alike::each_axis;
use crate::printing::{command, sample, step};
use controller::{ANSWER, Live};
use drive::axis::AXES;
use drive::health::Health;
use drive::motion::Drive;
use listing::{Line, read_line};
use model::row::Row;
use std::alloc::AllocError;

#[tactic(auto, unfolding(drive::specs::Axes::axes))]
fn blank_sheet() -> [Row; AXES]
    ensures { result ≡ C.no_rows }
{
    [Row::NOTHING; AXES]
}

#[tactic(auto, unfolding(crate::specs::Lines::blank_block))]
fn blank_block() -> [u8; ANSWER]
    ensures { result ≡ blank_block }
{
    [0; ANSWER]
}

/// Makes the call that is asked for, and prints what it told.
fn answer<D: Drive>(live: &mut Live<D>, line: Line<'_>, out: &mut Vec<u8>) -> Result<(), AllocError>
    ensures { Made (on_input D.Drive.ops (live_view D.Drive.state live.old) (seen line.entry)) (C.live (live_view D.Drive.state live.new)) result out.old out.new }
{
    let mut sheet = blank_sheet();
    match line {
        Line::Command(port, text) => {
            let mut block = blank_block();
            command(live, port, text, &mut sheet, &mut block, out)
        }
        Line::Sample(word) => sample(live, word, &mut sheet, out),
        Line::Step => {
            let health = Health { bits: 0xff };
            step(live, &each_axis(0), health, &mut sheet, out)
        }
    }
}

/// Answers a line without its line feed: the sheet has a row for each axis, and the answer block 192 bytes; at a step every axis is
/// up, and its reading 0. Another line is skipped.
pub fn answer_line<D: Drive>(
    live: &mut Live<D>,
    line: &[u8],
    out: &mut Vec<u8>,
) -> Result<(), AllocError>
    ensures { Made (on_line D.Drive.ops (live_view D.Drive.state live.old) (input line.now)) (C.live (live_view D.Drive.state live.new)) result out.old out.new }
{
    match read_line(line) {
        Some(line) => answer(live, line, out),
        None => Ok(()),
    }
}
