//! The names of Set.
//! By a rule of the project slice patterns match their bytes.
ghost use Rattle.std.specs.Prelude.{◌≡◌};
ghost use Rattle.names.specs.Places.{held, lead};
ghost use Rattle.names.specs.Setting.{letters, index, selections, changes, setting_names, setting_apart, setting_in_order};

use crate::Name;

/// A name of Set.
#[derive(Clone, Copy, Debug, PartialEq, Eq)]
pub enum SettingName {
    Ax,
    Ay,
    Az,
    At,
    Au,
    Av,
    Ar,
    As,
    Uu,
    Uf,
    Iok,
}

impl Name for SettingName {
    ghost table = { setting_names };

    ghost index = { index };

    ghost letters = { letters };

    ghost apart = { setting_apart };

    ghost in_order = { setting_in_order };

    fn index(self) -> usize {
        self as usize
    }

    fn letters(self) -> &'static str {
        match self {
            SettingName::Ax => "AX",
            SettingName::Ay => "AY",
            SettingName::Az => "AZ",
            SettingName::At => "AT",
            SettingName::Au => "AU",
            SettingName::Av => "AV",
            SettingName::Ar => "AR",
            SettingName::As => "AS",
            SettingName::Uu => "UU",
            SettingName::Uf => "UF",
            SettingName::Iok => "IOK",
        }
    }

    #[tactic(auto, using(crate::proofs::ByPlace::lead_append), unfolding(crate::specs::Setting::setting_names))]
    fn leading(text: &[u8]) -> Option<(SettingName, &[u8])> {
        selection(text).or_else(|| change(text))
    }

    #[tactic(auto, unfolding(crate::specs::Setting::setting_names))]
    fn misfit(text: &[u8]) -> usize {
        match text {
            [b'I' | b'i', b'O' | b'o', ..] => 2,
            [b'A' | b'a' | b'U' | b'u' | b'I' | b'i', ..] => 1,
            _ => 0,
        }
    }
}

/// The names that select an axis.
// Port M has these eight too: one helper for both would have to list the variants of each enum again.
fn selection(text: &[u8]) -> Option<(SettingName, &[u8])>
    ensures { held result ≡ lead selections text.now }
{
    match text {
        [b'A' | b'a', b'X' | b'x', rest @ ..] => Some((SettingName::Ax, rest)),
        [b'A' | b'a', b'Y' | b'y', rest @ ..] => Some((SettingName::Ay, rest)),
        [b'A' | b'a', b'Z' | b'z', rest @ ..] => Some((SettingName::Az, rest)),
        [b'A' | b'a', b'T' | b't', rest @ ..] => Some((SettingName::At, rest)),
        [b'A' | b'a', b'U' | b'u', rest @ ..] => Some((SettingName::Au, rest)),
        [b'A' | b'a', b'V' | b'v', rest @ ..] => Some((SettingName::Av, rest)),
        [b'A' | b'a', b'R' | b'r', rest @ ..] => Some((SettingName::Ar, rest)),
        [b'A' | b'a', b'S' | b's', rest @ ..] => Some((SettingName::As, rest)),
        _ => None,
    }
}

/// The names that change the axis.
fn change(text: &[u8]) -> Option<(SettingName, &[u8])>
    ensures { held result ≡ lead changes text.now }
{
    match text {
        [b'U' | b'u', b'U' | b'u', rest @ ..] => Some((SettingName::Uu, rest)),
        [b'U' | b'u', b'F' | b'f', rest @ ..] => Some((SettingName::Uf, rest)),
        [b'I' | b'i', b'O' | b'o', b'K' | b'k', rest @ ..] => Some((SettingName::Iok, rest)),
        _ => None,
    }
}
