//! The range of every number that a drive tells.
pub const BOTTOM: i64 = -2_147_483_646;

pub const TOP: i64 = 2_147_483_646;
