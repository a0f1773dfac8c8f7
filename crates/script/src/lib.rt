//! What a line of a script asks for.
#![tactic(auto)]

ghost use Rattle.script.specs.Examples.{Taken, Skipped};

mod drives;
mod lines;
mod numbers;
mod words;

pub use drives::{BaseDrive, DriveChoice};
pub use lines::{ScriptLine, read_script};

/// Examples of lines that are taken, and of lines that are not.
pub fn script_lines_stand()
    ensures taken { Taken }
    ensures skipped { Skipped }
{}
