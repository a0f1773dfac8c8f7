//! The axes, in order.
ghost use Rattle.std.specs.Prelude.{◌≡◌, ◌<◌, ◌∷◌, [], Some, pos, slice_index_or};
ghost use Rattle.drive.specs.Axes.{axes, index, number, letter, axis_at};

use std::fmt;

/// How many axes there are.
pub const AXES: usize = 8;

// A match would hold the same eight letters, a row for each.
const LETTERS: &[u8; AXES] = b"XYZTUVRS";

#[derive(Clone, Copy, Debug, PartialEq, Eq)]
pub enum Axis {
    X,
    Y,
    Z,
    T,
    U,
    V,
    R,
    S,
}

impl Axis {
    pub const ALL: [Axis; AXES] = [
        Axis::X,
        Axis::Y,
        Axis::Z,
        Axis::T,
        Axis::U,
        Axis::V,
        Axis::R,
        Axis::S,
    ];

    /// The axis at an index, from 0.
    pub fn at(i: usize) -> Option<Axis>
        ensures { result ≡ axis_at i }
    {
        Axis::ALL.get(i).copied()
    }

    /// From 0. There are two numberings, so each is a method with a name, and neither a `From`.
    pub fn index(self) -> usize
        ensures value { result ≡ index self }
        ensures small { result < axes }
    {
        self as usize
    }

    /// The number that a host knows the axis by, from 1.
    pub fn number(self) -> usize
        ensures { result ≡ number self }
    {
        self.index() + 1
    }

    pub fn letter(self) -> u8
        ensures { result ≡ letter self }
    {
        LETTERS[self.index()]
    }

    /// The axis's own of a row of readings: 0 where the row is too short.
    pub fn reading(self, readings: &[i64]) -> i64
        ensures { result ≡ slice_index_or readings.now (index self) (pos 0) }
    {
        readings.get(self.index()).copied().unwrap_or(0)
    }
}

impl fmt::Display for Axis {
    ghost output = { λ a. Some (letter a ∷ []) };

    fn fmt<W: fmt::Write>(&self, f: &mut fmt::Formatter<W>) -> fmt::Result {
        f.write_char(self.letter() as char)
    }
}
