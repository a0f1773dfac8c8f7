//! The rows that an axis's part of a call tells.
ghost use Rattle.std.specs.Prelude.{◌≡◌};
ghost use Rattle.model.specs.Rows as rows;
ghost use Rattle.parts.specs.Kinds.{number, counted};

use model::row::Row;
use queue::axis::Head;

/// What a row tells. A host reads its number.
#[derive(Clone, Copy)]
pub(crate) enum Kind {
    Nothing,
    Accepted,
    Executed,
    InMotion,
    Awaiting,
    DriveDown,
    Killed,
    ByCommand,
    BySample,
    ByReach,
}

impl Kind {
    fn number(self) -> u8
        ensures { result ≡ number self }
    {
        self as u8
    }
}

pub(crate) const NOTHING: Row = Row::NOTHING;

pub(crate) const IN_MOTION: Row = Row {
    kind: Kind::InMotion as u8,
    ..NOTHING
};

pub(crate) const AWAITING: Row = Row {
    kind: Kind::Awaiting as u8,
    ..NOTHING
};

pub(crate) const DRIVE_DOWN: Row = Row {
    kind: Kind::DriveDown as u8,
    ..NOTHING
};

pub(crate) const KILLED: Row = Row {
    kind: Kind::Killed as u8,
    ..NOTHING
};

/// A row that tells how many entries were placed or dropped.
pub(crate) fn counted(kind: Kind, count: usize) -> Row
    ensures { result ≡ counted kind count }
{
    Row {
        kind: kind.number(),
        count,
        ..NOTHING
    }
}

pub(crate) fn executed(head: Head) -> Row
    ensures { result ≡ rows.executed head.serial head.entry }
{
    Row {
        kind: Kind::Executed as u8,
        count: 0,
        serial: head.serial,
        code: head.entry.code.number(),
        operand: head.entry.operand,
    }
}
