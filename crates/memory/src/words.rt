// Numbers in a row of bytes, 8 bytes each, lowest byte first.
ghost use Rattle.std.specs.Prelude.{◌≡◌, length, ◌*◌, ◌≤◌};
ghost use Rattle.memory.specs.Words.{Fit, numbers_at, with_words};
ghost use Rattle.memory.specs.Numbers.{number_count};

use disk::number::{put_u64, u64_at};

// How many numbers a state has.
pub(crate) const NUMBERS: usize = 35;

// How many bytes a number has.
pub(crate) const WORD: usize = 8;

// The numbers that the bytes are. A byte past the end reads as 0.
pub(crate) fn numbers_at(bytes: &[u8]) -> [u64; NUMBERS]
    ensures { result ≡ numbers_at number_count bytes.now 0 }
{
    let mut a = [0u64; NUMBERS];
    for i in 0..NUMBERS {
        a[i] = u64_at(bytes, WORD * i);
    }
    a
}

// Writes the numbers a as number `from` and those behind it. Being of the code, each has 8 bytes.
pub(crate) fn put_numbers(bytes: &mut [u8], from: usize, a: &[u64])
    requires { (from ≤ number_count) × (length a.now ≤ number_count) }
    ensures { (bytes.new ≡ with_words a.now bytes.old (8 * from)) × Fit a.now }
{
    for i in 0..a.len() {
        put_u64(bytes, WORD * (from + i), a[i]);
    }
}
