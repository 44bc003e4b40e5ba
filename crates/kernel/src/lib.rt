// Rows of a table over the bytes of a stripe: one shard as the sum of the others, each times its coefficient, and whether a row's sum is 0 at
// every position. A stripe is n shards of `len` bytes, one behind the other, at the start of a slice. Both functions take any numbers and
// any slices; where these don't fit they do nothing. Short shards are walked byte by byte, longer ones block by block; one walk writes and the
// other tests, so each has its own, and what they share is `Weighed` and the steps.
#![tactic(auto)]

ghost use Rattle.std.specs.Prelude.{◌≡◌, ◌&&◌, ltb, length};
ghost use Rattle.kernel.specs.Kernel.{fits_of, Combines, Tests};

mod blocks;
mod bytes;
mod weighed;

use crate::weighed::Weighed;

// The most shards that the room for a row's steps is made for.
const N_MOST: usize = 64;

// The limit of document 01, section 2.
pub const LEN_MOST: usize = 4096;

// Whether a slice of `size` bytes has n shards of `len`, and a table of `room` bytes a row of n at `at`. (One test after the other: as one
// expression it was tried, and the proof of its joins didn't close.)
fn fits(n: usize, len: usize, size: usize, at: usize, room: usize) -> bool
    ensures { result ≡ fits_of n len size at room }
{
    if N_MOST < n {
        return false;
    }
    if LEN_MOST < len {
        return false;
    }
    if size < n * len {
        return false;
    }
    if room < n {
        return false;
    }
    at <= room - n
}

// Makes shard a the sum of the others, each times its coefficient in the row at `at` of a table. Where the slices don't fit, or there is no
// shard a, nothing changes.
pub fn combine(buf: &mut [u8], n: usize, len: usize, a: usize, table: &[u8], at: usize)
    ensures { Combines (fits_of n len (length buf.old) at (length table.now) && ltb a n) n len a table.now at buf.old buf.new }
{
    if !fits(n, len, buf.len(), at, table.len()) {
        return;
    }
    if n <= a {
        return;
    }
    let row = &table[at..at + n];
    if len < blocks::COLUMNS {
        bytes::combine_bytes(buf, len, a, row);
    } else {
        blocks::combine_blocks(buf, len, a, row);
    }
}

// Whether the sum of the shards, each times its coefficient in the row at `at` of a table, is 0 at every position. Where the slices don't
// fit, the answer is no.
pub fn row_zero(stripe: &[u8], n: usize, len: usize, table: &[u8], at: usize) -> bool
    ensures { Tests (fits_of n len (length stripe.now) at (length table.now)) result n len stripe.now table.now at }
{
    if !fits(n, len, stripe.len(), at, table.len()) {
        return false;
    }
    let row = &table[at..at + n];
    let shards = Weighed { row, stripe, len };
    if len < blocks::COLUMNS {
        bytes::row_zero_bytes(&shards)
    } else {
        blocks::row_zero_blocks(&shards)
    }
}
