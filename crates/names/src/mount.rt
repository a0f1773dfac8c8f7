//! The names of port M.
//! By a rule of the project slice patterns match their bytes.
ghost use Rattle.std.specs.Prelude.{◌≡◌};
ghost use Rattle.names.specs.Places.{held, lead};
ghost use Rattle.names.specs.Mount.{letters, index, selections, entries, clearings, questions, mount_names, mount_apart, mount_in_order};

use crate::Name;

/// A name of port M; HashEr is #ER.
#[derive(Clone, Copy, Debug, PartialEq, Eq)]
pub enum MountName {
    Ax,
    Ay,
    Az,
    At,
    Au,
    Av,
    Ar,
    As,
    Aa,
    Ma,
    Mr,
    Go,
    Bh,
    Bl,
    Sw,
    Bw,
    Kl,
    Ks,
    Fl,
    Rp,
    Rqc,
    HashEr,
}

impl Name for MountName {
    ghost table = { mount_names };

    ghost index = { index };

    ghost letters = { letters };

    ghost apart = { mount_apart };

    ghost in_order = { mount_in_order };

    fn index(self) -> usize {
        self as usize
    }

    fn letters(self) -> &'static str {
        match self {
            MountName::Ax => "AX",
            MountName::Ay => "AY",
            MountName::Az => "AZ",
            MountName::At => "AT",
            MountName::Au => "AU",
            MountName::Av => "AV",
            MountName::Ar => "AR",
            MountName::As => "AS",
            MountName::Aa => "AA",
            MountName::Ma => "MA",
            MountName::Mr => "MR",
            MountName::Go => "GO",
            MountName::Bh => "BH",
            MountName::Bl => "BL",
            MountName::Sw => "SW",
            MountName::Bw => "BW",
            MountName::Kl => "KL",
            MountName::Ks => "KS",
            MountName::Fl => "FL",
            MountName::Rp => "RP",
            MountName::Rqc => "RQC",
            MountName::HashEr => "#ER",
        }
    }

    fn leading(text: &[u8]) -> Option<(MountName, &[u8])> {
        selection(text)
            .or_else(|| entry(text))
            .or_else(|| clearing(text))
            .or_else(|| question(text))
    }

    #[tactic(auto, unfolding(crate::specs::Mount::mount_names))]
    fn misfit(text: &[u8]) -> usize {
        match text {
            [b'R' | b'r', b'Q' | b'q', ..] | [b'#', b'E' | b'e', ..] => 2,
            [
                b'A' | b'a' | b'M' | b'm' | b'G' | b'g' | b'B' | b'b' | b'S' | b's',
                ..
            ] => 1,
            [b'K' | b'k' | b'F' | b'f' | b'R' | b'r' | b'#', ..] => 1,
            _ => 0,
        }
    }
}

/// The names that select an axis, or all.
// Set has eight of these too: one helper for both would have to list the variants of each enum again.
fn selection(text: &[u8]) -> Option<(MountName, &[u8])>
    ensures { held result ≡ lead selections text.now }
{
    match text {
        [b'A' | b'a', b'X' | b'x', rest @ ..] => Some((MountName::Ax, rest)),
        [b'A' | b'a', b'Y' | b'y', rest @ ..] => Some((MountName::Ay, rest)),
        [b'A' | b'a', b'Z' | b'z', rest @ ..] => Some((MountName::Az, rest)),
        [b'A' | b'a', b'T' | b't', rest @ ..] => Some((MountName::At, rest)),
        [b'A' | b'a', b'U' | b'u', rest @ ..] => Some((MountName::Au, rest)),
        [b'A' | b'a', b'V' | b'v', rest @ ..] => Some((MountName::Av, rest)),
        [b'A' | b'a', b'R' | b'r', rest @ ..] => Some((MountName::Ar, rest)),
        [b'A' | b'a', b'S' | b's', rest @ ..] => Some((MountName::As, rest)),
        [b'A' | b'a', b'A' | b'a', rest @ ..] => Some((MountName::Aa, rest)),
        _ => None,
    }
}

/// The names of queue entries.
fn entry(text: &[u8]) -> Option<(MountName, &[u8])>
    ensures { held result ≡ lead entries text.now }
{
    match text {
        [b'M' | b'm', b'A' | b'a', rest @ ..] => Some((MountName::Ma, rest)),
        [b'M' | b'm', b'R' | b'r', rest @ ..] => Some((MountName::Mr, rest)),
        [b'G' | b'g', b'O' | b'o', rest @ ..] => Some((MountName::Go, rest)),
        [b'B' | b'b', b'H' | b'h', rest @ ..] => Some((MountName::Bh, rest)),
        [b'B' | b'b', b'L' | b'l', rest @ ..] => Some((MountName::Bl, rest)),
        [b'S' | b's', b'W' | b'w', rest @ ..] => Some((MountName::Sw, rest)),
        [b'B' | b'b', b'W' | b'w', rest @ ..] => Some((MountName::Bw, rest)),
        _ => None,
    }
}

/// The names that clear axes.
fn clearing(text: &[u8]) -> Option<(MountName, &[u8])>
    ensures { held result ≡ lead clearings text.now }
{
    match text {
        [b'K' | b'k', b'L' | b'l', rest @ ..] => Some((MountName::Kl, rest)),
        [b'K' | b'k', b'S' | b's', rest @ ..] => Some((MountName::Ks, rest)),
        [b'F' | b'f', b'L' | b'l', rest @ ..] => Some((MountName::Fl, rest)),
        _ => None,
    }
}

/// The names that are answered.
fn question(text: &[u8]) -> Option<(MountName, &[u8])>
    ensures { held result ≡ lead questions text.now }
{
    match text {
        [b'R' | b'r', b'P' | b'p', rest @ ..] => Some((MountName::Rp, rest)),
        [b'R' | b'r', b'Q' | b'q', b'C' | b'c', rest @ ..] => Some((MountName::Rqc, rest)),
        [b'#', b'E' | b'e', b'R' | b'r', rest @ ..] => Some((MountName::HashEr, rest)),
        _ => None,
    }
}
