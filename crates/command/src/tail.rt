//! A text that is read from the front.
ghost use Rattle.std.specs.Prelude.{◌≡◌, ℕ, ◌+◌, ◌^◌, ◌<◌, ◌≤◌, length, drop, IfOk, IfErr};

use crate::request::Refusal;
use names::{Name, name_of};

/// What is left of a text, and the place of its first byte.
// No `impl Model`: with one, a struct with a lifetime cannot be `Copy`.
#[derive(Clone, Copy)]
pub(crate) struct Tail<'a> {
    pub(crate) bytes: &'a [u8],
    pub(crate) at: usize,
    ghost fits: { at + length bytes.now < 2 ^ 64 },
}

impl<'a> Tail<'a> {
    ghost use Rattle.names.specs.Tables.{named};
    ghost use Rattle.command.specs.Fields.{closed};

    /// A whole text.
    pub(crate) fn whole(text: &'a [u8]) -> Tail<'a>
        ensures at { result.at ≡ 0 }
        ensures bytes { result.bytes.now ≡ text.now }
    {
        Tail { bytes: text, at: 0 }
    }

    /// What is left after the next `n` bytes.
    pub(crate) fn skip(self, n: usize) -> Tail<'a>
        requires { n ≤ length self.bytes.now }
        ensures at { result.at ≡ self.entry.at + n }
        ensures bytes { result.bytes.now ≡ drop n self.entry.bytes.now }
    {
        Tail {
            bytes: &self.bytes[n..],
            at: self.at + n,
        }
    }

    /// Nothing more may stand in the text.
    pub(crate) fn end(self) -> Result<(), Refusal>
        ensures { result ≡ closed self.entry.at self.entry.bytes.now }
    {
        match self.bytes {
            [] => Ok(()),
            _ => Err(Refusal::Form(self.at)),
        }
    }

    /// The name at the front, and what is left after it.
    pub(crate) fn name<N: Name>(self) -> Result<(N, Tail<'a>), Refusal>
        ensures name { IfOk result (λ r. Ok (r.0, r.1.bytes.now) ≡ named N.table self.entry.bytes.now) }
        ensures end { IfOk result (λ r. r.1.at + length r.1.bytes.now ≡ self.entry.at + length self.entry.bytes.now) }
        ensures refused { IfErr result (λ e. (p : ℕ) × (Err p ≡ named N.table self.entry.bytes.now) × (e ≡ Refusal.Name (self.entry.at + p))) }
    {
        let named = name_of(self.bytes).map_err(|place| Refusal::Name(self.at + place))?;
        let width = self.bytes.len() - named.rest.len();
        let rest = Tail {
            bytes: named.rest,
            at: self.at + width,
        };
        Ok((named.name, rest))
    }
}
