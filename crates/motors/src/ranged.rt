//! Numbers in a drive's range.
ghost use Rattle.drive.specs.Range.{InRange};

use drive::range::{BOTTOM, TOP};

/// A number in a drive's range.
// Not one type with two const parameters for this and for rates and steps: a signed one beside a ghost field does not prove.
#[derive(Clone, Copy)]
pub struct Ranged {
    pub value: i64,
    ghost ok: { InRange value },
}

impl Ranged {
    ghost use Rattle.std.specs.Prelude.{◌≡◌};
    ghost use Rattle.motors.specs.Motors.{near};

    /// The number, or the end of the range that it lies beyond.
    pub fn near(value: i64) -> Ranged
        ensures { result ≡ near value }
    {
        Ranged {
            value: value.clamp(BOTTOM, TOP),
        }
    }
}
