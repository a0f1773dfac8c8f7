//! A received block, and the texts that a reader hands out of it. The texts borrow the block.
ghost use Rattle.std.specs.Prelude.{◌≤◌, length};

/// A text of the block, and the offset of its first byte.
#[derive(Clone, Copy, PartialEq, Eq, Debug)]
pub struct Part<'a> {
    pub bytes: &'a [u8],
    pub offset: usize,
}

/// What a reader comes to next: a text with a separator after it, a last one without, or nothing more.
/// By a rule of the project the end is one of the three, so this is no `Option`.
// No `impl Model`: an enum cannot have one.
#[derive(Clone, Copy, PartialEq, Eq, Debug)]
pub enum Piece<'a> {
    Command(Part<'a>),
    Unfinished(Part<'a>),
    End,
}

/// The bytes before `offset` have been read.
/// By a rule of the project it holds the block and an offset, and its method gives the next part: it is no `Iterator`.
#[derive(Drop)]
pub struct Reader<'a> {
    pub(crate) block: &'a [u8],
    pub(crate) offset: usize,
    ghost inside: { offset ≤ length block.now },
}
