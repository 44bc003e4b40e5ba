// CRC-32C by a table, sixteen bytes a turn.
#![tactic(auto)]

mod table;

ghost use Rattle.std.specs.Prelude.{◌≡◌, ◌+◌, ◌≤◌, ◌<◌};
ghost use Rattle.std.specs.Int.Bits.{bit_xor};
ghost use Rattle.crc32c.specs.Crc.{all_ones, steps, run, crc_of};
ghost use Rattle.crc32c.specs.Table.{entry, Filled};

use crate::table::TABLE;

const ALL_ONES: u32 = 0xffffffff;

// A table that says of each byte what it becomes.
#[derive(Clone, Copy)]
struct Steps<'a> {
    entries: &'a [u32; 4096],
    ghost filled: { Filled entries.now },
}

impl<'a> Steps<'a> {
    // What a byte becomes in the steps of entry j.
    fn after(&self, x: u8, j: usize) -> u32
        requires { j < 16 }
        ensures { result ≡ entry x j }
    {
        self.entries[16 * usize::from(x) + j]
    }

    // One byte into the register.
    fn byte_in(&self, c: u32, x: u8) -> u32
        ensures { result ≡ steps 8 (bit_xor c x) }
    {
        let [low, ..] = (c ^ u32::from(x)).to_le_bytes();
        (c / 256) ^ self.after(low, 0)
    }

    // What a word becomes in the steps of entry j + 3: its lowest byte goes furthest.
    fn word_in(&self, w: u32, j: usize) -> u32
        requires { j + 4 ≤ 16 }
        ensures { result ≡ entry w (j + 3) }
    {
        let [s, r, q, p] = w.to_le_bytes();
        self.after(p, j) ^ self.after(q, j + 1) ^ self.after(r, j + 2) ^ self.after(s, j + 3)
    }

    // Sixteen bytes into the register. The words that don't wait for it come first.
    fn turn(&self, c: u32, bytes: &[u8; 16]) -> u32
        ensures { result ≡ run c bytes.now }
    {
        let (words, _) = bytes.as_chunks::<4>();
        let early = self.word_in(u32::from_le_bytes(words[3]), 0)
            ^ self.word_in(u32::from_le_bytes(words[2]), 4)
            ^ self.word_in(u32::from_le_bytes(words[1]), 8);
        early ^ self.word_in(c ^ u32::from_le_bytes(words[0]), 12)
    }

    // The register after all bytes: sixteen a turn, and those that are left one by one.
    fn register(&self, bytes: &[u8]) -> u32
        ensures { result ≡ run all_ones bytes.now }
    {
        let (turns, rest) = bytes.as_chunks::<16>();
        let c = turns.iter().fold(ALL_ONES, |c, turn| self.turn(c, turn));
        rest.iter().fold(c, |c, x| self.byte_in(c, *x))
    }
}

// The CRC-32C of the bytes.
pub fn crc32c(bytes: &[u8]) -> u32
    ensures { result ≡ crc_of bytes.now }
{
    let steps = Steps { entries: &TABLE };
    steps.register(bytes) ^ ALL_ONES
}
