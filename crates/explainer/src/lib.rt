//! Tells what the texts of a received block ask for.
#![tactic(auto)]

ghost use Rattle.std.specs.Prelude.{◌≡◌, IfOk};
ghost use Rattle.explainer.specs.Reports.{reported};

mod reading;
mod settings;
mod words;

use crate::reading::Explainer;
pub use reading::Reading;
use std::alloc::{AllocError, Global};

/// A line for each text of the block, and how many there are.
pub fn report(heap: Global, reading: Reading, block: &[u8]) -> Result<Vec<u8>, AllocError>
    ensures { IfOk result (λ v. v.items ≡ reported reading block.now) }
{
    Ok(reports::report(heap, Explainer::new(reading), block)?.into_bytes())
}
