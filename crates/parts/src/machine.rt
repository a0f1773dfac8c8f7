//! What entries act on: the drive, the axes and the output word.
ghost use Rattle.parts.specs.Bounds.{AllSound, AllSound-prop};

mod all;
mod base;
mod commands;
mod questions;
mod sample;
mod turn;

use crate::post::Post;
use drive::axis::AXES;

/// The output word has a bit for each contact that BH and BL drive.
// No `impl Model`: its `Value` would hold the drive's State, a ghost member of a bound, which a `Value` cannot name.
#[derive(Drop)]
pub struct Machine<D> {
    drive: D,
    posts: [Post; AXES],
    output: u16,
    pub ghost sound: { AllSound posts } by { AllSound-prop posts },
}
