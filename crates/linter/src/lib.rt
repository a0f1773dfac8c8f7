//! Tells what the texts of a received block are.
#![tactic(auto)]

ghost use Rattle.std.specs.Prelude.{◌≡◌, IfOk};
ghost use Rattle.linter.specs.Reports.{reported};

mod verdict;

use crate::verdict::Linter;
use std::alloc::{AllocError, Global};

/// A line for each text of the block, and how many there are.
pub fn report(heap: Global, block: &[u8]) -> Result<Vec<u8>, AllocError>
    ensures { IfOk result (λ v. v.items ≡ reported block.now) }
{
    Ok(reports::report(heap, Linter, block)?.into_bytes())
}
