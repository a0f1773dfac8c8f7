//! The numbers of a line.
ghost use Rattle.std.specs.Prelude.{◌≡◌, IfOk, vec_items};
ghost use Rattle.std.specs.Option.{option_map};
ghost use Rattle.script.specs.Words.{words};
ghost use Rattle.script.specs.Numbers.{number, held, leading, size, numbers};

use crate::words::split;
use std::alloc::{AllocError, Global};
use text::read_number;

/// One to ten digits, with a minus before them or not, and nothing more.
pub(crate) fn number_of(word: &[u8]) -> Option<i64>
    ensures { result ≡ number word.now }
{
    if let [b'+', ..] = word {
        return None;
    }
    match read_number(word, false) {
        Ok(number) if number.end == word.len() => Some(number.value),
        _ => None,
    }
}

/// A number, and what follows the space after it.
pub(crate) fn read_leading(text: &[u8]) -> Option<(i64, &[u8])>
    ensures { held result ≡ leading text.now }
{
    let (word, rest) = split(text);
    Some((number_of(word)?, rest?))
}

/// One to ten digits alone, which make no more than `most`.
pub(crate) fn size_of(word: &[u8], most: usize) -> Option<usize>
    ensures { result ≡ size most word.now }
{
    if let [b'-', ..] = word {
        return None;
    }
    let size = number_of(word)?.unsigned_abs() as usize;
    (size <= most).then_some(size)
}

/// Numbers with single spaces between them.
pub(crate) fn read_numbers(heap: Global, text: &[u8]) -> Result<Option<Vec<i64>>, AllocError>
    ensures { IfOk result (λ o. option_map vec_items o ≡ numbers (words text.now)) }
{
    let mut numbers = Vec::new(heap);
    for word in text.split(|byte| *byte == b' ') {
        let Some(number) = number_of(word) else {
            return Ok(None);
        };
        numbers.push(number)?;
    }
    Ok(Some(numbers))
}
