//! The drives that a script can choose.
ghost use Rattle.std.specs.Prelude.{◌≡◌};
ghost use Rattle.script.specs.Drives.{base, choice};

use crate::numbers::{number_of, read_leading};
use crate::words::after;

/// A drive that stands over no other. All axes are alike.
#[derive(Clone, Copy, Debug, PartialEq, Eq)]
pub enum BaseDrive {
    Counting { rate: i64, start: i64 },
    Reporting { start: i64 },
}

#[derive(Clone, Copy, Debug, PartialEq, Eq)]
pub enum DriveChoice {
    Base(BaseDrive),
    /// A ratio drive, with so many steps of the drive below to one count.
    Ratio { steps: i64, below: BaseDrive },
}

fn read_base(text: &[u8]) -> Option<BaseDrive>
    ensures { result ≡ base text.now }
{
    if let Some(numbers) = after(text, b"counting ") {
        let (rate, start) = read_leading(numbers)?;
        let start = number_of(start)?;
        return Some(BaseDrive::Counting { rate, start });
    }
    let start = number_of(after(text, b"reporting ")?)?;
    Some(BaseDrive::Reporting { start })
}

/// What follows `new `.
pub(crate) fn read_drive(text: &[u8]) -> Option<DriveChoice>
    ensures { result ≡ choice text.now }
{
    if let Some(rest) = after(text, b"ratio ") {
        let (steps, below) = read_leading(rest)?;
        let below = read_base(below)?;
        return Some(DriveChoice::Ratio { steps, below });
    }
    Some(DriveChoice::Base(read_base(text)?))
}
