//! A row of a sheet: what a call did to one axis.

/// Five numbers, as a host reads them, so the kind is one of them; those that the kind does not name are 0.
#[derive(Clone, Copy, Debug, PartialEq, Eq)]
pub struct Row {
    /// What happened, from 0 to 9.
    pub kind: u8,
    /// Entries placed or dropped.
    pub count: usize,
    /// The number of the executed entry among those of the axis since arming.
    pub serial: u32,
    /// The number of the executed entry's code.
    pub code: u8,
    /// The executed entry's operand.
    pub operand: i64,
}

impl Row {
    /// Nothing happened.
    pub const NOTHING: Row = Row {
        kind: 0,
        count: 0,
        serial: 0,
        code: 0,
        operand: 0,
    };
}
