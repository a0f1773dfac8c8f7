//! Scales a number by a factor, to whole counts.
ghost use Rattle.std.specs.Prelude.{◌≡◌, ◌+◌, ◌^◌, ◌<◌, ◌≤◌, pos, ◌*ℤ◌, unsigned_abs};
ghost use Rattle.text.specs.Scaling.{rounds_up, nearest, counts, Nearest};

use crate::decimal::Decimal;

/// Whether the rest of a division counts as one more: a half goes away from zero.
fn rounds_up(rest: i64, unit: i64) -> bool
    requires { unsigned_abs rest ≤ 10 ^ 18 }
    ensures { result ≡ rounds_up (unsigned_abs rest) (unsigned_abs unit) }
{
    unit.unsigned_abs() <= 2 * rest.unsigned_abs()
}

/// The quotient, rounded to the nearest whole number.
fn divided(product: i64, unit: i64) -> i64
    requires unit { (unit ≡ pos (unsigned_abs unit)) × ((0 < unsigned_abs unit) × (unsigned_abs unit ≤ 10 ^ 18)) }
    requires product { unsigned_abs product ≤ 2 ^ 62 }
    ensures { result ≡ nearest product (unsigned_abs unit) }
{
    let whole = product / unit;
    if !rounds_up(product % unit, unit) {
        whole
    } else if product < 0 {
        whole - 1
    } else {
        whole + 1
    }
}

impl Decimal {
    /// The number times a factor, rounded to the nearest whole number.
    pub fn scaled(self, factor: Decimal) -> i64
        ensures value { result ≡ counts self factor }
        ensures near { Nearest (self.value *ℤ factor.value) (10 ^ (self.places + factor.places)) result }
    {
        let unit = 10u64.pow((self.places + factor.places) as u32);
        divided(self.value * factor.value, unit as i64)
    }
}
