//! What is told of the texts of a block, one after the other.
ghost use Rattle.std.specs.Prelude.{◌≡◌, ℕ, List, IfOk, Some};
ghost use Rattle.reports.specs.Tellings.{words_of, is_known, Telling, Tells};

use std::alloc::{AllocError, Global};
use std::fmt;

/// What is told of a text that is known, or the number of its refusal, which its line prints, and the place that it is about.
#[derive(Drop)]
pub enum Told {
    Known(String),
    Refused { number: u8, place: usize },
}

impl Told {
    pub(crate) fn is_known(&self) -> bool
        ensures { result ≡ is_known self.now }
    {
        matches!(self, Told::Known(_))
    }
}

impl fmt::Display for Told {
    ghost output = { λ told. Some (words_of told) };

    fn fmt<W: fmt::Write>(&self, f: &mut fmt::Formatter<W>) -> fmt::Result {
        match self {
            Told::Known(words) => f.write_str(words.as_str()),
            Told::Refused { number, place } => write!(f, "! {number} {place}"),
        }
    }
}

/// Tells of each text of a block in turn, and keeps what a text leaves to those after it.
pub trait Teller {
    /// What it tells of a text, and what it is after that.
    ghost telling: { Self → List ℕ → Telling Self };

    fn tell(&mut self, heap: Global, text: &[u8]) -> Result<Told, AllocError>
        ensures { IfOk result (λ told. Tells told self.new (telling self.old text.now)) };
}
