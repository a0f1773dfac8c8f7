//! Bytes into texts and numbers, and numbers into bytes.
#![tactic(auto)]

mod block;
mod decimal;
mod number;
mod reader;
mod scale;
mod write;

pub use block::{Part, Piece, Reader};
pub use decimal::{Decimal, LIMIT};
pub use number::{Number, numbers_stand, read_number};
pub use write::{store, write_number};

#[cfg(test)]
mod tests;
