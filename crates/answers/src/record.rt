//! The first-error record.
ghost use Rattle.std.specs.Prelude.{◌≡◌, ◌≤◌, [], ◌∷◌, ◌++◌, length};
ghost use Rattle.text.specs.Writing.{over};
ghost use Rattle.answers.specs.Records.{kept};

use arrayvec::ArrayVec;
use command::LONGEST;
use std::marker::Model;
use text::store;

/// The bytes of the first bad text, or none.
#[derive(Drop)]
pub struct ErrorRecord {
    bytes: ArrayVec<u8, LONGEST>,
}

impl Model for ErrorRecord {
    ghost use Rattle.std.specs.Prelude.{ℕ, ◌≤◌, List, length};

    ghost Value = { List ℕ };

    ghost view = { λ r. r.bytes.items };

    ghost invariant = { λ r. length r.bytes.items ≤ 160 };
}

/// Writes the bytes to the front of the block; those past its end are not stored.
fn write_bytes(block: &mut [u8], bytes: &[u8])
    ensures { block.new ≡ over bytes.now block.old }
{
    for (i, byte) in bytes.iter().enumerate() {
        store(block, i, *byte);
    }
}

impl ErrorRecord {
    pub fn empty() -> ErrorRecord
        ensures { result ≡ [] }
    {
        ErrorRecord {
            bytes: ArrayVec::new(),
        }
    }

    /// Keeps the text, as far as there is room, where none is held yet.
    pub fn note(&mut self, text: &[u8])
        ensures keeps { self.new ≡ kept self.old text.now }
        ensures most { length self.new ≤ 160 }
    {
        if self.bytes.is_empty() {
            let front = &text[..text.len().min(LONGEST)];
            self.bytes.try_extend_from_slice(front).unwrap();
        }
    }

    /// Writes the record and a line feed to the front of the block, and says how many bytes that takes; those past the block's
    /// end are not stored.
    pub fn write(&self, block: &mut [u8]) -> usize
        ensures len { result ≡ length (self.now ++ (10 ∷ [])) }
        ensures most { result ≤ 161 }
        ensures block { block.new ≡ over (self.now ++ (10 ∷ [])) block.old }
    {
        let bytes = self.bytes.as_slice();
        write_bytes(block, bytes);
        store(block, bytes.len(), b'\n');
        bytes.len() + 1
    }

    pub fn clear(&mut self)
        ensures { self.new ≡ [] }
    {
        self.bytes.clear();
    }
}
