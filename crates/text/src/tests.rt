//! Blocks parted, and numbers read, scaled and written, by example.
use crate::{Part, Piece, Reader, read_number, write_number};

fn part(bytes: &[u8], offset: usize) -> Part<'_> {
    Part { bytes, offset }
}

#[test]
fn parts(rt: HostRuntime) {
    let mut reader = Reader::new(b" MR5;\r\nGO ;T");
    assert_eq!(rt; reader.next(), Piece::Command(part(b"MR5", 1)));
    assert_eq!(rt; reader.next(), Piece::Command(part(b"GO", 7)));
    assert_eq!(rt; reader.next(), Piece::Unfinished(part(b"T", 11)));
    assert_eq!(rt; reader.next(), Piece::End);
    let mut blank = Reader::new(b"; \n");
    assert_eq!(rt; blank.next(), Piece::End);
}

fn read(text: &[u8], point: bool) -> Result<(i64, usize, usize), usize> {
    let number = read_number(text, point)?;
    Ok((number.value, number.places, number.end))
}

#[test]
fn numbers(rt: HostRuntime) {
    assert_eq!(rt; read(b"-12,", false), Ok((-12, 0, 3)));
    assert_eq!(rt; read(b"+1.50x", true), Ok((150, 2, 5)));
    assert_eq!(rt; read(b"1.5", false), Ok((1, 0, 1)));
    assert_eq!(rt; read(b"12345678901", true), Ok((1234567890, 0, 10)));
    assert_eq!(rt; read(b"1234567890.1", true), Ok((1234567890, 0, 10)));
    assert_eq!(rt; read(b"1.x", true), Err(2));
    assert_eq!(rt; read(b"1.", true), Err(2));
    assert_eq!(rt; read(b".5", true), Err(0));
    assert_eq!(rt; read(b"-", true), Err(1));
    assert_eq!(rt; read(b"", true), Err(0));
}

/// The counts that a number makes by a factor.
fn counts(number: &[u8], factor: &[u8]) -> Option<i64> {
    let number = read_number(number, true).ok()?.decimal()?;
    let factor = read_number(factor, true).ok()?.decimal()?;
    Some(number.scaled(factor))
}

#[test]
fn scales(rt: HostRuntime) {
    assert_eq!(rt; counts(b"1.1", b"2.5"), Some(3));
    assert_eq!(rt; counts(b"0.2", b"2.5"), Some(1));
    assert_eq!(rt; counts(b"-0.2", b"2.5"), Some(-1));
    assert_eq!(rt; counts(b"-1.49", b"1"), Some(-1));
    assert_eq!(rt; counts(b"0.000000001", b"0.5"), Some(0));
    assert_eq!(rt;
        counts(b"2147483646", b"-2147483646"),
        Some(-4611686009837453316)
    );
    assert_eq!(rt; counts(b"2147483647", b"1"), None);
}

#[test]
fn writes(rt: HostRuntime) {
    let mut out = [b'.'; 6];
    assert_eq!(rt; write_number(&mut out, -420), 4);
    assert_eq!(rt; out, *b"-420..");
    assert_eq!(rt; write_number(&mut out[4..], 1234), 4);
    assert_eq!(rt; out, *b"-42012");
    assert_eq!(rt; write_number(&mut out, 0), 1);
    assert_eq!(rt; out, *b"042012");
    assert_eq!(rt; write_number(&mut out, i64::MIN), 20);
    assert_eq!(rt; out, *b"-92233");
}
