//! What a setting asks for, in words.
ghost use Rattle.std.specs.Prelude.{◌≡◌, Some};
ghost use Rattle.std.specs.Fmt.{WritesOnOk};
ghost use Rattle.explainer.specs.Writing.{Says};
ghost use Rattle.explainer.specs.Settings.{with_point, factor_words, change_words};

use command::request::Setting;
use drive::axis::Axis;
use std::alloc::{AllocError, Global};
use std::fmt;
use text::Decimal;

/// Writes digits with a point before the last `places` of them.
fn with_point<W: fmt::Write>(f: &mut fmt::Formatter<W>, digits: u64, places: usize) -> fmt::Result
    ensures { WritesOnOk W.write_str_gives f.old result (with_point places digits) f.new }
{
    if places == 0 {
        return write!(f, "{digits}.");
    }
    with_point(f, digits / 10, places - 1)?;
    let last = digits % 10;
    write!(f, "{last}")
}

/// A factor: its digits, with their point where it stood; it is above 0, so it has no sign.
#[derive(Clone, Copy)]
struct Factor(Decimal);

impl fmt::Display for Factor {
    ghost output = { λ x. Some (factor_words x.0) };

    fn fmt<W: fmt::Write>(&self, f: &mut fmt::Formatter<W>) -> fmt::Result {
        let digits = self.0.value().unsigned_abs();
        match self.0.places() {
            0 => write!(f, "{digits}"),
            places => with_point(f, digits, places),
        }
    }
}

/// What is set of Set's axis, or which one that becomes.
pub(crate) fn setting_words(
    heap: Global,
    setting: Setting,
    axis: Axis,
) -> Result<String, AllocError>
    ensures { Says result (change_words axis setting) }
{
    match setting {
        Setting::Select(own) => format!(in heap; "select {own}"),
        Setting::UnitsOn(factor) => format!(in heap; "set {axis} units {}", Factor(factor)),
        Setting::UnitsOff => format!(in heap; "set {axis} units off"),
        Setting::KillInput { bit, level } => {
            let level = u8::from(level);
            format!(in heap; "set {axis} kill input {bit} at level {level}")
        }
        Setting::NoKillInputs => format!(in heap; "set {axis} no kill inputs"),
    }
}
