//! Hexadecimal digits.
ghost use Rattle.std.specs.Prelude.{◌≡◌, ◌^◌, ◌<◌, ◌≤◌, IfSome};
ghost use Rattle.listing.specs.Hex.{digit, digits};

/// What a digit stands for, in either case.
fn digit_of(byte: u8) -> Option<u32>
    ensures value { result ≡ digit byte }
    ensures small { IfSome result (λ d. d < 16) }
{
    char::from(byte).to_digit(16)
}

/// A number of just so many digits, at most four.
// Not by `from_str_radix`: that takes a sign too.
#[tactic(auto, using(crate::proofs::Digits::word_small))]
fn read_digits(text: &[u8], many: usize) -> Option<u32>
    requires { many ≤ 4 }
    ensures value { result ≡ digits many text.now }
    ensures small { IfSome result (λ n. n < 16 ^ many) }
{
    if text.len() != many {
        return None;
    }
    let mut number = 0;
    for byte in text {
        number = number * 16 + digit_of(*byte)?;
    }
    Some(number)
}

/// A byte: two digits and nothing more.
pub fn read_byte(text: &[u8]) -> Option<u8>
    ensures { result ≡ digits 2 text.now }
{
    Some(read_digits(text, 2)? as u8)
}

/// A word: four digits and nothing more.
pub fn read_word(text: &[u8]) -> Option<u16>
    ensures { result ≡ digits 4 text.now }
{
    Some(read_digits(text, 4)? as u16)
}
