//! The words of a line, with single spaces between them.
ghost use Rattle.std.specs.Prelude.{◌≡◌, ◌==◌, position};
ghost use Rattle.std.specs.Option.{option_map};
ghost use Rattle.listing.specs.Lines.{after};
ghost use Rattle.script.specs.Words.{parted, Shorter};

/// What stands after these bytes at the front of a line.
pub(crate) fn after<'a>(line: &'a [u8], front: &[u8]) -> Option<&'a [u8]>
    ensures { option_map (λ x. x.now) result ≡ after front.now line.now }
{
    line.strip_prefix(front)
}

/// Where the first space stands.
fn space_in(text: &[u8]) -> Option<usize>
    ensures { result ≡ position (λ b. b == 32) text.now }
{
    text.iter().position(|byte| *byte == b' ')
}

/// The first word, and what follows the space after it, if there is one.
pub(crate) fn split(text: &[u8]) -> (&[u8], Option<&[u8]>)
    ensures value { (result.0.now, option_map (λ x. x.now) result.1) ≡ parted text.now }
    ensures shorter { Shorter (option_map (λ x. x.now) result.1) text.now }
{
    match space_in(text) {
        Some(i) => (&text[..i], Some(&text[i + 1..])),
        None => (text, None),
    }
}
