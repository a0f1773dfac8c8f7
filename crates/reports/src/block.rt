//! The report of a block.
ghost use Rattle.std.specs.Prelude.{◌≡◌, ◌^◌, IfOk, OnOk, string_bytes};
ghost use Rattle.reports.specs.Tallies.{Within};
ghost use Rattle.reports.specs.Reports.{so_far, blank, with_text, reported};

use crate::shown::show;
use crate::tally::Tally;
use crate::teller::Teller;
use std::alloc::{AllocError, Global};
use std::fmt::Write;
use text::{Part, Piece, Reader};

/// A report as far as it goes: its lines, the tally of the texts, and who tells of the next one.
#[derive(Drop)]
struct Draft<T> {
    lines: String,
    tally: Tally,
    teller: T,
}

impl<T: Teller> Draft<T> {
    fn new(heap: Global, teller: T) -> Self
        ensures { so_far result ≡ blank teller }
    {
        Draft {
            lines: String::new(heap),
            tally: Tally::none(),
            teller,
        }
    }

    /// One text more.
    fn add(&mut self, part: Part, finished: bool) -> Result<(), AllocError>
        requires { Within self.old.tally (2 ^ 63) }
        ensures { OnOk result (so_far self.new ≡ with_text T.telling (so_far self.old) part.entry.bytes.now part.entry.offset finished) }
    {
        let told = self.teller.tell(*self.lines.allocator(), part.bytes)?;
        let offset = part.offset;
        write!(self.lines, "{offset} ")?;
        show(&mut self.lines, part.bytes)?;
        let mark = if finished { "" } else { " unfinished" };
        writeln!(self.lines, " {told}{mark}")?;
        self.tally = self.tally.count(told.is_known(), finished);
        Ok(())
    }
}

/// A line for each text of the block, and how many there are.
pub fn report<T: Teller + Drop>(heap: Global, teller: T, block: &[u8]) -> Result<String, AllocError>
    ensures { IfOk result (λ s. string_bytes s ≡ reported T.telling teller block.now) }
{
    let mut reader = Reader::new(block);
    let mut draft = Draft::new(heap, teller);
    // A `loop`, as the reader is no `Iterator`: by a rule of the project its method gives the next part.
    loop {
        match reader.next() {
            Piece::Command(part) => draft.add(part, true)?,
            Piece::Unfinished(part) => draft.add(part, false)?,
            Piece::End => break,
        }
    }
    let Draft {
        mut lines,
        tally,
        ..
    } = draft;
    writeln!(lines, "{tally}")?;
    Ok(lines)
}
