//! A text as its line shows it.
ghost use Rattle.std.specs.Prelude.{◌≡◌, ◌<◌, true, ◌++◌, OnOk, string_bytes};
ghost use Rattle.std.specs.Fmt.{digit_glyph};
ghost use Rattle.reports.specs.Lines.{printable, shown_byte, shown};

use std::alloc::AllocError;

const DIGITS: &[u8; 16] = b"0123456789ABCDEF";

fn is_printable(byte: u8) -> bool
    ensures { result ≡ printable byte }
{
    matches!(byte, b' '..=b'~')
}

/// A hexadecimal digit, in upper case.
#[tactic(auto, using(crate::proofs::Digits::digit_at))]
fn hexadecimal(digit: u8) -> char
    requires { digit < 16 }
    ensures { result ≡ digit_glyph true digit }
{
    char::from(DIGITS[usize::from(digit)])
}

/// Shows a byte: printable ASCII as it is, any other as `\xHH`.
fn show_byte(lines: &mut String, byte: u8) -> Result<(), AllocError>
    ensures { OnOk result (string_bytes lines.new ≡ string_bytes lines.old ++ shown_byte byte) }
{
    if is_printable(byte) {
        return lines.push(char::from(byte));
    }
    lines.push('\\')?;
    lines.push('x')?;
    lines.push(hexadecimal(byte / 16))?;
    lines.push(hexadecimal(byte % 16))
}

/// Shows a text, each of its bytes in turn.
pub(crate) fn show(lines: &mut String, text: &[u8]) -> Result<(), AllocError>
    ensures { OnOk result (string_bytes lines.new ≡ string_bytes lines.old ++ shown text.now) }
{
    for byte in text {
        show_byte(lines, *byte)?;
    }
    Ok(())
}
