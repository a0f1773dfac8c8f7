//! How many texts a block has, and of which kind.
ghost use Rattle.std.specs.Prelude.{◌≡◌, ◌^◌, Some};
ghost use Rattle.reports.specs.Tallies.{none, counted, Within, counts};

use std::fmt;

#[derive(Clone, Copy)]
pub(crate) struct Tally {
    texts: usize,
    known: usize,
    refused: usize,
    unfinished: usize,
}

impl Tally {
    pub(crate) fn none() -> Self
        ensures { result ≡ none }
    {
        Tally {
            texts: 0,
            known: 0,
            refused: 0,
            unfinished: 0,
        }
    }

    /// One text more, known or refused.
    pub(crate) fn count(self, known: bool, finished: bool) -> Self
        requires { Within self (2 ^ 63) }
        ensures { result ≡ counted self known finished }
    {
        Tally {
            texts: self.texts + 1,
            known: self.known + usize::from(known),
            refused: self.refused + usize::from(!known),
            unfinished: self.unfinished + usize::from(!finished),
        }
    }
}

impl fmt::Display for Tally {
    ghost output = { λ t. Some (counts t) };

    fn fmt<W: fmt::Write>(&self, f: &mut fmt::Formatter<W>) -> fmt::Result {
        let Tally {
            texts,
            known,
            refused,
            unfinished,
        } = *self;
        write!(
            f,
            "texts {texts}, known {known}, refused {refused}, unfinished {unfinished}"
        )
    }
}
