//! Numbers with a comma after each but the last, and a line feed after that.
ghost use Rattle.std.specs.Prelude.{◌≡◌, ◌+◌, ◌≤◌, [], ◌∷◌, ◌++◌, length};
ghost use Rattle.text.specs.Writing.{decimal, put, over};
ghost use Rattle.model.specs.Controller.{line};

use text::{store, write_number};

/// Writes a number into the tail of the block from `at` on, and `end` straight after it; says where that ends.
/// By a rule of the project the tail of the block is lent on to the number writer.
fn write_field(block: &mut [u8], at: usize, n: i64, end: u8) -> usize
    requires { at ≤ 1000 }
    ensures end { result ≡ at + length (decimal n ++ (end ∷ [])) }
    ensures block { block.new ≡ put at (decimal n ++ (end ∷ [])) block.old }
    ensures most { result ≤ at + 22 }
{
    let tail = at.min(block.len());
    let len = write_number(&mut block[tail..], n);
    store(block, at + len, end);
    at + len + 1
}

/// Writes the numbers to the front of the block, and says how many bytes that takes; those past the block's end are not stored.
pub(crate) fn write_line(block: &mut [u8], numbers: &[i64]) -> usize
    requires { length numbers.now ≤ 40 }
    ensures len { result ≡ length (line numbers.now) }
    ensures block { block.new ≡ over (line numbers.now) block.old }
{
    let mut at = 0;
    for (i, n) in numbers.iter().enumerate() {
        let end = if i + 1 < numbers.len() { b',' } else { b'\n' };
        at = write_field(block, at, *n, end);
    }
    at
}
