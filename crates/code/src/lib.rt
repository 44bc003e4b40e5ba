// Encode, rebuild, scrub and repair of one stripe: k data shards and m parity shards of `len` bytes, one behind the other in one
// slice. Every function takes any numbers and any slice; what can't be done is refused, in the order of document 01, section 7,
// and changes nothing.
#![tactic(auto)]

ghost use Rattle.std.specs.Prelude.{◌≡◌, length, Ok, ◌+◌, ◌*◌, ◌≤◌, ◌<◌};
ghost use Rattle.std.specs.Bool.{OnTrue};
ghost use Rattle.codeword.specs.Stripe.{InRange, len_most};
ghost use Rattle.code.specs.Shape.{shaped_of, Shaped};
ghost use Rattle.solve.specs.Lost.{Lost};
ghost use Rattle.code.specs.Padded.{padded};
ghost use Rattle.code.specs.Blame.{RowsZero, Blamed, Located, Judged, Filled};
ghost use Rattle.code.specs.Stripes.{Encoded, Rebuilt, Accuses, Says, Mends, Repaired};

use field::Refusal;
use kernel::LEN_MOST;
use solve::{K_LEAST, K_MOST, M_LEAST, M_MOST};
use std::ops::Range;

// The least length of a shard; its greatest is kernel's, and the limits of k and m are solve's.
const LEN_LEAST: usize = 1;

// The most bytes of a table.
const TABLE: usize = M_MOST * (K_MOST + M_MOST);

// What a scrub says of a stripe.
#[derive(Clone, Copy, PartialEq, Eq)]
pub enum Verdict {
    // All equations hold.
    Sound,
    // They don't, and would with another content of this shard alone.
    Accused(usize),
    // They don't, and no shard is accused.
    Unsound,
}

// How many data shards and how many parity shards there are, and how many bytes each has, where the code is for so many.
#[derive(Clone, Copy)]
struct Shape {
    k: usize,
    m: usize,
    len: usize,
    ghost in_range: { InRange k m },
    ghost len_least: { 1 ≤ len },
    ghost len_most_lem: { len ≤ len_most },
}

impl Shape {
    // Whether these rows of the table are 0 at every position.
    fn rows_zero(self, stripe: &[u8], table: &[u8], mut rows: Range<usize>) -> bool
        requires stripe_len { length stripe.now ≡ (self.k + self.m) * self.len }
        requires table_len { length table.now ≡ self.m * (self.k + self.m) }
        requires rows_in_table { rows.end ≤ self.m }
        ensures { RowsZero rows.start rows.end (self.k + self.m) self.len table.now stripe.now result }
    {
        let n = self.k + self.m;
        rows.all(|j| kernel::row_zero(stripe, n, self.len, table, j * n))
    }

    // Whether another content of shard r alone would make the stripe sound.
    fn blames(self, stripe: &[u8], table: &mut [u8], r: u8) -> bool
        requires stripe_len { length stripe.now ≡ (self.k + self.m) * self.len }
        requires table_len { length table.old ≡ self.m * (self.k + self.m) }
        requires r_in_stripe { r < self.k + self.m }
        ensures { Blamed self.k self.m self.len stripe.now r result × (length table.new ≡ length table.old) }
    {
        solve::solve(self.k, self.m, &[r], table);
        self.rows_zero(stripe, table, 1..self.m)
    }

    // The first shard that is accused.
    fn accused(self, stripe: &[u8], table: &mut [u8]) -> Verdict
        requires stripe_len { length stripe.now ≡ (self.k + self.m) * self.len }
        requires table_len { length table.old ≡ self.m * (self.k + self.m) }
        ensures { Located self.k self.m self.len stripe.now result }
    {
        for r in 0..self.k + self.m {
            if self.blames(stripe, table, r as u8) {
                return Verdict::Accused(r);
            }
        }
        Verdict::Unsound
    }

    // A scrub, with a table to work in.
    fn scrub_with(self, stripe: &[u8], table: &mut [u8]) -> Verdict
        requires stripe_len { length stripe.now ≡ (self.k + self.m) * self.len }
        requires table_len { length table.old ≡ self.m * (self.k + self.m) }
        ensures { Judged self.k self.m self.len stripe.now result }
    {
        solve::solve(self.k, self.m, &[], table);
        if self.rows_zero(stripe, table, 0..self.m) {
            return Verdict::Sound;
        }
        if self.m < 2 {
            return Verdict::Unsound;
        }
        self.accused(stripe, table)
    }

    // Writes to `all` the lost shards, and after them the others from the greatest down, as many as there is room for.
    fn pad(self, lost: &[u8], all: &mut [u8])
        requires lost { Lost self.k self.m lost.now }
        requires room { length all.old ≡ self.m }
        ensures { all.new ≡ padded self.k self.m lost.now }
    {
        all[..lost.len()].copy_from_slice(lost);
        let mut c = lost.len();
        for a in (0..(self.k + self.m) as u8).rev() {
            if c == self.m {
                break;
            }
            if !lost.contains(&a) {
                all[c] = a;
                c += 1;
            }
        }
    }

    // Fills the lost shards in from the k shards that are not in `all`, with a table to work in.
    fn fill_with(self, lost: &[u8], all: &[u8], stripe: &mut [u8], table: &mut [u8])
        requires stripe_len { length stripe.old ≡ (self.k + self.m) * self.len }
        requires lost { Lost self.k self.m lost.now }
        requires all_padded { all.now ≡ padded self.k self.m lost.now }
        requires table_len { length table.old ≡ self.m * (self.k + self.m) }
        ensures { Filled self.k self.m self.len lost.now stripe.old stripe.new }
    {
        let n = self.k + self.m;
        solve::solve(self.k, self.m, all, table);
        for (c, &a) in lost.iter().enumerate() {
            kernel::combine(stripe, n, self.len, usize::from(a), table, c * n);
        }
    }

    // Fills the lost shards in from the k least of the others.
    fn fill_in(self, lost: &[u8], stripe: &mut [u8])
        requires stripe_len { length stripe.old ≡ (self.k + self.m) * self.len }
        requires lost { Lost self.k self.m lost.now }
        ensures { Filled self.k self.m self.len lost.now stripe.old stripe.new }
    {
        let size = self.m * (self.k + self.m);
        let mut all = [0u8; M_MOST];
        let mut table = [0u8; TABLE];
        self.pad(lost, &mut all[..self.m]);
        self.fill_with(lost, &all[..self.m], stripe, &mut table[..size]);
    }

    // Gives an accused shard the content that makes the stripe sound.
    fn mend(self, stripe: &mut [u8], r: usize)
        requires stripe_len { length stripe.old ≡ (self.k + self.m) * self.len }
        requires accused { Accuses self.k self.m self.len stripe.old r }
        ensures { Mends self.k self.m self.len (Ok (Verdict.Accused r)) stripe.old stripe.new }
    {
        self.fill_in(&[r as u8], stripe);
    }
}

// Whether k, m and the shards' length are in range, and the buffer is exactly as long as its shards.
#[tactic(auto, unfolding(crate::specs::Shape::shaped_of))]
fn shaped(k: usize, m: usize, len: usize, size: usize) -> bool
    ensures value { result ≡ shaped_of k m len size }
    ensures shape { OnTrue result (Shaped k m len size) }
{
    (K_LEAST..=K_MOST).contains(&k)
        && (M_LEAST..=M_MOST).contains(&m)
        && (LEN_LEAST..=LEN_MOST).contains(&len)
        && size == (k + m) * len
}

// Says whether the stripe is sound, and if not, which shard alone can be to blame.
pub fn scrub(k: usize, m: usize, len: usize, stripe: &[u8]) -> Result<Verdict, Refusal>
    ensures { Says k m len stripe.now result }
{
    if !shaped(k, m, len, stripe.len()) {
        return Err(Refusal::BadShape); // without a shape there is no verdict
    }
    let size = m * (k + m);
    let mut table = [0u8; TABLE];
    Ok(Shape { k, m, len }.scrub_with(stripe, &mut table[..size]))
}

// Scrubs, and mends an accused shard.
pub fn repair(k: usize, m: usize, len: usize, stripe: &mut [u8]) -> Result<Verdict, Refusal>
    ensures { Repaired k m len result stripe.old stripe.new }
{
    let found = scrub(k, m, len, stripe)?;
    if let Verdict::Accused(r) = found {
        Shape { k, m, len }.mend(stripe, r);
    }
    Ok(found)
}

// Fills in the shards that are missing, from the k least of the others.
pub fn rebuild(
    k: usize,
    m: usize,
    len: usize,
    missing: &[u8],
    stripe: &mut [u8],
) -> Result<(), Refusal>
    ensures { Rebuilt k m len missing.now result stripe.old stripe.new }
{
    if !shaped(k, m, len, stripe.len()) {
        return Err(Refusal::BadShape);
    }
    if m < missing.len() {
        return Err(Refusal::TooMany);
    }
    if !solve::shards(k + m, missing) {
        return Err(Refusal::BadShard);
    }
    Shape { k, m, len }.fill_in(missing, stripe);
    Ok(())
}

// Computes the parity shards of the data shards.
pub fn encode(k: usize, m: usize, len: usize, stripe: &mut [u8]) -> Result<(), Refusal>
    ensures { Encoded k m len result stripe.old stripe.new }
{
    if !shaped(k, m, len, stripe.len()) {
        return Err(Refusal::BadShape);
    }
    let parity = [k as u8, (k + 1) as u8, (k + 2) as u8];
    Shape { k, m, len }.fill_in(&parity[..m], stripe);
    Ok(())
}
