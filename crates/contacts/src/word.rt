//! A contact's number, and its bit in a word of contacts.
ghost use Rattle.std.specs.Prelude.{◌≡◌, ℕ, ◌^◌, ◌<◌, if◌then◌else◌, nat_eq};
ghost use Rattle.contacts.specs.Words.{contact_count, contact_of, bit, written};

/// How many contacts a word has.
const CONTACT_COUNT: u64 = 16;

/// A contact, by its number from 0 to 15: the bit that it has in a word.
#[derive(Clone, Copy)]
pub struct Contact {
    number: u8,
    ghost within: { number < contact_count },
}

impl Contact {
    /// The contact with this number; a number that no contact has stands for its size modulo 16.
    pub fn new(number: i64) -> Contact
        ensures { result.number ≡ contact_of number }
    {
        Contact {
            number: (number.unsigned_abs() % CONTACT_COUNT) as u8,
        }
    }

    /// The word in which this contact alone is 1.
    fn mask(self) -> u16
        ensures { result ≡ 2 ^ self.number }
    {
        1 << self.number
    }
}

/// Whether the contact is 1 in the word.
pub fn bit(word: u16, at: Contact) -> bool
    ensures { result ≡ bit word at.number }
{
    word & at.mask() != 0
}

/// The word with the contact made 1 or 0.
pub fn with_bit(word: u16, at: Contact, level: bool) -> u16
    ensures value { result ≡ written word at.number level }
    ensures bits { (b : ℕ) → bit result b ≡ (if nat_eq b at.number then level else bit word b) }
{
    if level {
        word | at.mask()
    } else {
        word & !at.mask()
    }
}
