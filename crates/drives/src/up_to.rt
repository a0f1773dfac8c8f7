//! Numbers from 1 up.
ghost use Rattle.std.specs.Prelude.{pos};
ghost use Rattle.drive.specs.Range.{Within};

/// A number from 1 to MOST.
#[derive(Clone, Copy)]
pub struct UpTo<const MOST: u32> {
    pub value: i64,
    ghost ok: { Within (pos 1) (pos MOST) value },
}

impl<const MOST: u32> UpTo<MOST> {
    ghost use Rattle.std.specs.Prelude.{◌≡◌, ◌≤◌};
    ghost use Rattle.motors.specs.Limits.{clamped};

    /// The number, or the nearest from 1 to MOST.
    pub(crate) fn near(value: i64) -> Self
        requires { 1 ≤ MOST }
        ensures { result.value ≡ clamped (pos 1) (pos MOST) value }
    {
        UpTo {
            value: value.clamp(1, i64::from(MOST)),
        }
    }
}
