//! The kill inputs of an axis: the contacts that kill it, each at one level.
ghost use Rattle.std.specs.Prelude.{◌≡◌, ℕ, ◌-◌, if◌then◌else◌, Some, None, Decides, bit_and, bit_xor, nat_eq};
ghost use Rattle.contacts.specs.Kills.{level_of, no_kills, with_kill, hit, Standing};

use crate::word::{Contact, with_bit};

/// Which contacts kill, and the level at which each does.
/// A contact that does not kill has level 0, so that equal sets are equal values.
/// Two words, and no array of options: three bit operations judge a sampled word by them.
#[derive(Clone, Copy)]
pub struct KillInputs {
    contacts: u16,
    levels: u16,
}

impl KillInputs {
    /// No contact kills.
    pub fn none() -> KillInputs
        ensures value { result ≡ no_kills }
        ensures levels { (b : ℕ) → level_of result b ≡ None }
    {
        KillInputs {
            contacts: 0,
            levels: 0,
        }
    }

    /// The contact kills at this level and no longer at another; the others kill as they do.
    pub fn with(self, at: Contact, level: bool) -> KillInputs
        ensures value { result ≡ with_kill self at.number level }
        ensures levels { (b : ℕ) → level_of result b ≡ (if nat_eq b at.number then Some level else level_of self b) }
    {
        KillInputs {
            contacts: with_bit(self.contacts, at, true),
            levels: with_bit(self.levels, at, level),
        }
    }

    /// Whether a kill input stands at its kill level in the word.
    pub fn is_hit(self, word: u16) -> bool
        ensures value { result ≡ hit self word }
        ensures exactly { Decides result (Standing self word) }
    {
        self.standing(word) != 0
    }

    /// The kill inputs that stand at their kill level in the word, as a word.
    fn standing(self, word: u16) -> u16
        ensures { result ≡ bit_and self.contacts (65535 - bit_xor word self.levels) }
    {
        self.contacts & !(word ^ self.levels)
    }
}
