//! Why a call turns back.
ghost use Rattle.std.specs.Prelude.{◌≡◌};
ghost use Rattle.model.specs.Refusals.{noticed};
ghost use Rattle.model.specs.declared.refusal.Refusal.TheVariants.{Text};

use command::request::{Notice, Refusal as Unread};
use drive::axis::Axis;

/// The eleven refusals, in the order in which they are looked for.
#[derive(Clone, Copy, Debug, PartialEq, Eq)]
pub enum Refusal {
    /// The sheet has not a row for each axis.
    Sheet,
    /// The answer block is too short.
    Answer,
    /// There is not a reading for each axis.
    Readings,
    /// The text is refused.
    Text(Unread),
    /// A named axis is killed.
    Killed(Axis),
    /// A named axis has too few command or argument places.
    Places(Axis),
    /// A named axis would take in more entries than it may from one arming to the next.
    Count(Axis),
}

impl From<Unread> for Refusal {
    ghost from_gives = { λ unread refusal. refusal ≡ Text unread };

    fn from(unread: Unread) -> Refusal {
        Refusal::Text(unread)
    }
}

impl Refusal {
    /// What a host is told: numbers are its format.
    pub fn notice(self) -> Notice
        ensures { result ≡ noticed self }
    {
        let (number, axis) = match self {
            Refusal::Text(refusal) => return refusal.notice(),
            Refusal::Sheet => (1, 0),
            Refusal::Answer => (2, 0),
            Refusal::Readings => (3, 0),
            Refusal::Killed(axis) => (9, axis.number()),
            Refusal::Places(axis) => (10, axis.number()),
            Refusal::Count(axis) => (11, axis.number()),
        };
        Notice {
            number,
            place: 0,
            axis,
        }
    }
}
