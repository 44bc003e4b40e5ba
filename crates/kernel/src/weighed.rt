// Shards with a coefficient for each.
ghost use Rattle.std.specs.Prelude.{◌≡◌, ℕ, ◌+◌, ◌-◌, ◌*◌, ◌≤◌, ◌<◌, length, get_or};
ghost use Rattle.codeword.specs.Stripe.{len_most};
ghost use Rattle.kernel.specs.Kernel.{n_most};

// A row of a table over a stripe: a coefficient for each shard, and shards of `len` bytes, one behind the other, at the start of a slice.
#[derive(Clone, Copy)]
pub(crate) struct Weighed<'a> {
    pub(crate) row: &'a [u8],
    pub(crate) stripe: &'a [u8],
    pub(crate) len: usize,
    ghost few: { length row.now ≤ n_most },
    ghost short: { len ≤ len_most },
    ghost fits: { length row.now * len ≤ length stripe.now },
    ghost bytes: { (i : ℕ) → get_or stripe.now i 0 < 256 },
}

impl Weighed<'_> {
    // Where the byte of shard r at position p stands in the slice.
    pub(crate) fn place(&self, r: usize, p: usize) -> usize
        requires { (r < length self.now.row.now) × (p ≤ self.now.len) }
        ensures { (result ≡ r * self.now.len + p) × (result + (self.now.len - p) ≤ length self.now.stripe.now) }
    {
        r * self.len + p
    }
}
