//! Reads a number: a sign or none, then one to ten digits, with one point between digits where points are allowed.
ghost use Rattle.std.specs.Prelude.{◌≡◌, ◌+◌, ◌^◌, ◌<◌, ◌≤◌, length, drop};
ghost use Rattle.text.specs.Numbers.{signs, negative, start, step, scanned, decimals, finished, signed, reads, Sound, Bounded};
ghost use Rattle.text.specs.Decimals.{decimal_of};
ghost use Rattle.text.specs.Typed.{Typed, RoundTrip};

use crate::decimal::{Decimal, LIMIT, MOST_PLACES};

/// A number that stood at the front of a text: its value with the point left out, how many of its digits stood after
/// the point, and where it ended.
#[derive(Clone, Copy)]
pub struct Number {
    pub value: i64,
    pub places: usize,
    pub end: usize,
}

/// A number as far as it has been read: where that is, how many digits it has, what they make, and how many of them stood
/// before its point. That is 0 while there is no point, not an `Option`, so that `digits == whole` says that a digit is
/// missing, before the point or after it.
#[derive(Clone, Copy)]
struct Scan {
    end: usize,
    digits: usize,
    value: u64,
    whole: usize,
}

const MOST_DIGITS: usize = 10;

impl Scan {
    /// With one byte more; None where the number cannot go on with it.
    fn step(self, byte: u8, point: bool) -> Option<Scan>
        requires { (self.end + 1 < 2 ^ 64) × (Sound self) }
        ensures { result ≡ step point self byte }
    {
        if self.digits >= MOST_DIGITS {
            return None;
        }
        match byte {
            b'0'..=b'9' => Some(Scan {
                end: self.end + 1,
                digits: self.digits + 1,
                value: self.value * 10 + u64::from(byte - b'0'),
                ..self
            }),
            b'.' if point && self.whole == 0 && self.digits > 0 => Some(Scan {
                end: self.end + 1,
                whole: self.digits,
                ..self
            }),
            _ => None,
        }
    }

    fn places(self) -> usize
        requires { self.whole ≤ self.digits }
        ensures { result ≡ decimals self }
    {
        if self.whole == 0 {
            0
        } else {
            self.digits - self.whole
        }
    }

    /// The number that has been read, or where its next digit is missing.
    fn number(self, minus: bool) -> Result<Number, usize>
        requires { Sound self }
        ensures value { result ≡ finished minus self }
        ensures bounds { Bounded self.end result }
    {
        if self.digits == self.whole {
            return Err(self.end);
        }
        Ok(Number {
            value: with_sign(minus, self.value),
            places: self.places(),
            end: self.end,
        })
    }
}

fn sign_len(text: &[u8]) -> usize
    ensures { result ≡ signs text.now }
{
    match text {
        [b'+' | b'-', ..] => 1,
        _ => 0,
    }
}

fn is_negative(text: &[u8]) -> bool
    ensures { result ≡ negative text.now }
{
    matches!(text, [b'-', ..])
}

fn with_sign(minus: bool, size: u64) -> i64
    requires { size < 10 ^ 10 }
    ensures { result ≡ signed minus size }
{
    let value = size as i64;
    if minus { -value } else { value }
}

/// The number at the front of a text, as far as the text goes on with it.
fn scan_number(text: &[u8], point: bool) -> Scan
    ensures value { result ≡ scanned point (start (signs text.now)) (drop (signs text.now) text.now) }
    ensures sound { Sound result }
    ensures within { result.end ≤ length text.now }
{
    let sign = sign_len(text);
    let mut scan = Scan {
        end: sign,
        digits: 0,
        value: 0,
        whole: 0,
    };
    for byte in &text[sign..] {
        let Some(next) = scan.step(*byte, point) else {
            break;
        };
        scan = next;
    }
    scan
}

/// The number at the front of a text, or the place of the first byte that fits no number there (the text's length where a
/// byte is missing). The number ends at the first byte that it cannot go on with: whether that byte may stand there is for
/// the caller to say.
pub fn read_number(text: &[u8], point: bool) -> Result<Number, usize>
    ensures value { result ≡ reads point text.now }
    ensures bounds { Bounded (length text.now) result }
{
    scan_number(text, point).number(is_negative(text))
}

impl Number {
    /// The number, where its digits and places are in range.
    // No `TryFrom`: its error would say no more than None does.
    pub fn decimal(self) -> Option<Decimal>
        ensures { result ≡ decimal_of self }
    {
        if (-LIMIT..=LIMIT).contains(&self.value) && self.places <= MOST_PLACES {
            Some(Decimal {
                value: self.value,
                places: self.places,
            })
        } else {
            None
        }
    }
}

/// Numbers as they are typed are read, and those that are written are read back.
pub fn numbers_stand()
    ensures typed { Typed }
    ensures back { RoundTrip }
{}
