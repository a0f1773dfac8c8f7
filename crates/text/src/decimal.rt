//! A number whose digits, its point left out, are in range.
ghost use Rattle.std.specs.Prelude.{◌≡◌, ◌≤◌, unsigned_abs};
ghost use Rattle.text.specs.Decimals.{Fixed};

use std::marker::Model;

/// The greatest size of a position, a target or a number's digits.
pub const LIMIT: i64 = 2_147_483_646;

/// The most digits that can stand after a number's point.
pub(crate) const MOST_PLACES: usize = 9;

#[derive(Clone, Copy)]
pub struct Decimal {
    pub(crate) value: i64,
    pub(crate) places: usize,
}

impl Model for Decimal {
    ghost Value = { Fixed };

    ghost view = { λ d. record { value = d.value; places = d.places } };

    ghost invariant = { λ d. (unsigned_abs d.value ≤ 2_147_483_646) × (d.places ≤ 9) };

    ghost inverse = { λ d. record { value = d.value; places = d.places } };
}

impl Decimal {
    /// The digits with the point left out, and their sign.
    pub fn value(self) -> i64
        ensures value { result ≡ self.value }
        ensures small { unsigned_abs result ≤ 2_147_483_646 }
    {
        self.value
    }

    /// How many of the digits stand after the point.
    pub fn places(self) -> usize
        ensures places { result ≡ self.places }
        ensures few { result ≤ 9 }
    {
        self.places
    }
}
