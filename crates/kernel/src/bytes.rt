// A row of a table byte by byte: for shards that are shorter than a block. Adds a multiple of one shard to another, and tests a row's sum
// at each position.
ghost use Rattle.std.specs.Prelude.{◌≡◌, ◌+◌, ◌*◌, ◌≤◌, ◌<◌, length, unwrap_or};
ghost use Rattle.kernel.specs.Kernel.{Parts, MulAdded, Shards, weight, Combined, row_at, RowZero};

use crate::weighed::Weighed;

// Adds c times the `len` bytes at src to the `len` bytes at dst.
fn mul_add_within(buf: &mut [u8], dst: usize, src: usize, len: usize, c: u8)
    requires { Parts dst src len (length buf.old) }
    ensures { MulAdded c dst src len buf.old buf.new }
{
    for i in 0..len {
        buf[dst + i] ^= field::mul(c, buf[src + i]);
    }
}

// The coefficient of shard r in a row, but 0 for the shard that is left out.
pub(crate) fn weight_of(row: &[u8], left_out: Option<usize>, r: usize) -> u8
    requires { r < length row.now }
    ensures { result ≡ weight row.now 0 (unwrap_or left_out (length row.now)) r }
{
    if left_out == Some(r) { 0 } else { row[r] }
}

// What `combine` does, byte by byte.
pub(crate) fn combine_bytes(buf: &mut [u8], len: usize, a: usize, row: &[u8])
    requires { Shards (length row.now) len (length buf.old) × (a < length row.now) }
    ensures { Combined (length row.now) len a row.now 0 buf.old buf.new }
{
    buf[a * len..a * len + len].fill(0);
    for r in 0..row.len() {
        let w = weight_of(row, Some(a), r);
        if w != 0 {
            mul_add_within(buf, a * len, r * len, len, w);
        }
    }
}

// The sum at position p of the shards, each times its coefficient.
fn row_at(shards: &Weighed, p: usize) -> u8
    requires { p < shards.now.len }
    ensures { result ≡ row_at (length shards.now.row.now) shards.now.len shards.now.stripe.now shards.now.row.now 0 p }
{
    let mut sum: u8 = 0;
    for (r, w) in shards.row.iter().enumerate() {
        sum ^= field::mul(*w, shards.stripe[shards.place(r, p)]);
    }
    sum
}

// What `row_zero` says, byte by byte.
pub(crate) fn row_zero_bytes(shards: &Weighed) -> bool
    ensures { RowZero result (length shards.now.row.now) shards.now.len shards.now.stripe.now shards.now.row.now 0 }
{
    (0..shards.len).all(|p| row_at(shards, p) == 0)
}
