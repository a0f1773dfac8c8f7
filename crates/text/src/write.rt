//! Writes bytes and numbers into a block of an answer.
ghost use Rattle.std.specs.Prelude.{◌≡◌, ◌+◌, ◌^◌, ◌<◌, ◌≤◌, length, slice_set, unsigned_abs};
ghost use Rattle.text.specs.Writing.{digits, decimal, put, over};

/// Stores a byte of an answer: every byte enters its block here. Past the block's end it is not stored.
pub fn store(block: &mut [u8], at: usize, byte: u8)
    ensures { block.new ≡ slice_set block.old at byte }
{
    // Not by `get_mut`: its contract says nothing of the elements of a slice afterwards.
    if at < block.len() {
        block[at] = byte;
    }
}

/// Writes the digits of `n` from `at` on, the first digit first, and says where they end.
// By hand: by a rule of the project a number goes straight into the lent tail of an answer, and nothing here allocates.
fn write_digits(out: &mut [u8], at: usize, n: u64) -> usize
    requires { at ≤ 1 }
    ensures end { result ≡ at + length (digits n) }
    ensures out { out.new ≡ put at (digits n) out.old }
    ensures most { result ≤ at + 20 }
    ensures short { n < 10 ^ 10 → result ≤ at + 10 }
{
    if n < 10 {
        store(out, at, b'0' + n as u8);
        at + 1
    } else {
        let end = write_digits(out, at, n / 10);
        store(out, end, b'0' + (n % 10) as u8);
        end + 1
    }
}

/// Writes a number in base ten to the front of `out`, and says how many bytes it takes; those past the end of `out` are
/// not stored.
pub fn write_number(out: &mut [u8], n: i64) -> usize
    ensures len { result ≡ length (decimal n) }
    ensures out { out.new ≡ over (decimal n) out.old }
    ensures most { result ≤ 21 }
    ensures short { unsigned_abs n < 10 ^ 10 → result ≤ 11 }
{
    if n < 0 {
        store(out, 0, b'-');
        write_digits(out, 1, n.unsigned_abs())
    } else {
        write_digits(out, 0, n.unsigned_abs())
    }
}
