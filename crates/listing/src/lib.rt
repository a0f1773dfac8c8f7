//! The lines of a session with a controller: what a line asks for, and what is printed of a call's outcome.
#![tactic(auto)]

ghost use Rattle.listing.specs.Examples.{Read, Printed};

mod hex;
mod input;
mod output;
mod show;

pub use hex::{read_byte, read_word};
pub use input::{Line, read_line};
pub use output::{print_command, print_park, print_set, print_sheet};
pub use show::{Course, print_show};

/// Examples of lines that are read or skipped, and of what is printed.
pub fn listed_lines_stand()
    ensures read { Read }
    ensures printed { Printed }
{}
