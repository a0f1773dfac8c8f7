//! Parts a block into texts at space, CR, LF and semicolon.
ghost use Rattle.std.specs.Prelude.{◌≡◌, ◌+◌, ◌≤◌, length};
ghost use Rattle.text.specs.Blocks.{separates, run, seen, cut, cut_at, after, pieces, onto, Onward, Parted};

use crate::block::{Part, Piece, Reader};

fn is_separator(byte: u8) -> bool
    ensures { result ≡ separates byte }
{
    matches!(byte, b' ' | b'\r' | b'\n' | b';')
}

/// How many bytes at the front are separators, or are none.
fn run_len(bytes: &[u8], separators: bool) -> usize
    ensures within { result ≤ length bytes.now }
    ensures value { result ≡ run separators bytes.now }
{
    bytes
        .iter()
        .take_while(|&&byte| is_separator(byte) == separators)
        .count()
}

/// The text of `size` bytes at `from`; with none there, the end.
fn piece_at(block: &[u8], from: usize, size: usize) -> Piece<'_>
    requires { from + size ≤ length block.now }
    ensures { seen result ≡ cut block.now from size }
{
    let part = Part {
        bytes: &block[from..from + size],
        offset: from,
    };
    if size == 0 {
        Piece::End
    } else if from + size == block.len() {
        Piece::Unfinished(part)
    } else {
        Piece::Command(part)
    }
}

/// What is next from `offset` on.
fn piece_from(block: &[u8], offset: usize) -> Piece<'_>
    requires { offset ≤ length block.now }
    ensures piece { seen result ≡ cut_at block.now offset }
    ensures inside { after (length block.now) (seen result) ≤ length block.now }
{
    let from = offset + run_len(&block[offset..], true);
    let size = run_len(&block[from..], false);
    piece_at(block, from, size)
}

/// The offset after a piece of a block of `len` bytes: one separator after a text is passed with it.
fn offset_after(piece: Piece, len: usize) -> usize
    requires { after len (seen piece) ≤ len }
    ensures { result ≡ after len (seen piece.entry) }
{
    match piece {
        Piece::Command(part) => part.offset + part.bytes.len() + 1,
        Piece::Unfinished(_) | Piece::End => len,
    }
}

impl<'a> Reader<'a> {
    pub fn new(block: &'a [u8]) -> Self
        ensures block { result.block.now ≡ block.now }
        ensures offset { result.offset ≡ 0 }
    {
        Reader { block, offset: 0 }
    }

    /// The next text; past the last one, the end. The texts that are left are all of the block that is left.
    pub fn next(&mut self) -> Piece<'a>
        ensures block { self.new.block.now ≡ self.old.block.now }
        ensures piece { seen result ≡ cut_at self.old.block.now self.old.offset }
        ensures offset { self.new.offset ≡ after (length self.old.block.now) (seen result) }
        ensures left { pieces self.old.block.now self.old.offset ≡ onto (seen result) (pieces self.old.block.now self.new.offset) }
        ensures parted { Parted self.old.block.now self.old.offset (pieces self.old.block.now self.old.offset) }
        ensures onward { Onward (seen result) self.old.offset self.new.offset (length self.old.block.now) }
    {
        let piece = piece_from(self.block, self.offset);
        self.offset = offset_after(piece, self.block.len());
        piece
    }
}
