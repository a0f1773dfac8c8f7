//! The lines that are read.
ghost use Rattle.std.specs.Prelude.{◌≡◌};
ghost use Rattle.listing.specs.Lines.{inputs, input};

use crate::hex::read_word;
use command::request::Port;

/// What a line asks for.
// No `impl Model`: an enum cannot have one.
#[derive(Clone, Copy)]
pub enum Line<'a> {
    /// A text that comes in by a port.
    Command(Port, &'a [u8]),
    /// A word of contacts.
    Sample(u16),
    /// One step of time.
    Step,
}

/// What a line without its line feed asks for; none where it is none of the lines told.
pub fn read_line(line: &[u8]) -> Option<Line<'_>>
    ensures { inputs result ≡ input line.now }
{
    match line {
        [b'M', b' ', text @ ..] => Some(Line::Command(Port::M, text)),
        [b'P', b' ', text @ ..] => Some(Line::Command(Port::P, text)),
        [b'S', b' ', digits @ ..] => Some(Line::Sample(read_word(digits)?)),
        b"T" => Some(Line::Step),
        _ => None,
    }
}
