//! What a text is.
ghost use Rattle.std.specs.Prelude.{◌≡◌};
ghost use Rattle.linter.specs.Verdicts.{judged};

use names::{MountName, Name, name_of};
use reports::{Teller, Told};
use std::alloc::{AllocError, Global};

/// A text has at most this many bytes.
const LONGEST: usize = 160;

/// Why a text is refused: it is too long, or no name leads it: none goes on with the byte at this place.
#[derive(Clone, Copy)]
enum Refusal {
    Length,
    Unnamed(usize),
}

/// The name that leads the text, or why it is refused.
fn judge(text: &[u8]) -> Result<MountName, Refusal>
    ensures { result ≡ judged text.now }
{
    if text.len() > LONGEST {
        return Err(Refusal::Length);
    }
    let named = name_of::<MountName>(text).map_err(Refusal::Unnamed)?;
    Ok(named.name)
}

/// Tells of each text the name that leads it.
#[derive(Clone, Copy)]
pub(crate) struct Linter;

impl Teller for Linter {
    ghost use Rattle.linter.specs.Reports.{telling};

    ghost telling = { telling };

    fn tell(&mut self, heap: Global, text: &[u8]) -> Result<Told, AllocError> {
        Ok(match judge(text) {
            Ok(name) => Told::Known(String::from_str(heap, name.letters())?),
            Err(Refusal::Length) => Told::Refused {
                number: 4,
                place: 0,
            },
            Err(Refusal::Unnamed(place)) => Told::Refused { number: 5, place },
        })
    }
}
