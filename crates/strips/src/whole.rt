// A whole stripe: scrubbed, mended, and prepared for a write of one block. A refusal changes nothing.
ghost use Rattle.std.specs.Prelude.{◌≡◌, true, ◌-◌, ◌*◌, ◌≤◌, ◌<◌, length, Ok};
ghost use Rattle.std.proofs.Math.Seq.{paste};
ghost use Rattle.disk.specs.Limits.{most_n, most_sectors};
ghost use Rattle.disk.specs.Geometry.{Splits};
ghost use Rattle.code.specs.Shape.{shaped_of};
ghost use Rattle.code.specs.Stripes.{Says, Repaired};
ghost use Rattle.strips.specs.Seen.{shard_bytes, row_seen};
ghost use Rattle.strips.specs.Answers.{few_lost};
ghost use Rattle.strips.specs.Whole.{stripe_seen, Lies, none_lost, whole_answer, FoundBy, prepare_answer, changes, Restored, PreparedBy, AfterPrepare};

use crate::lost::Lost;
use crate::seen::{Seen, Source, has_stripe};
use crate::shown::few_lost;
use code::Verdict;
use disk::geometry::may_split;
use disk::limits::SECTOR;
use disk::refusal::Refusal;
use disk::sector::fits_image;

// Whether no shard is lost.
fn none_lost(n: usize, t: usize, there: u64) -> bool
    requires { (n ≤ most_n) × (t ≤ most_sectors) }
    ensures { result ≡ none_lost n t there }
{
    Lost::among(n, t, there).len() == 0
}

// Rebuilds what is lost of a stripe, or repairs a stripe of which nothing is; says whether a write is to change all its shards.
fn restore(n: usize, k: usize, t: usize, there: u64, size: usize, stripe: &mut [u8]) -> bool
    requires { (n ≤ most_n) × (k ≤ n) × (t ≤ most_sectors) × (shaped_of k (n - k) size (length stripe.old) ≡ true) }
    ensures { Restored n k t there size result stripe.old stripe.new }
{
    if none_lost(n, t, there) {
        let found = code::repair(k, n - k, size, stripe).unwrap();
        return found != Verdict::Sound;
    }
    let _ = Lost::among(n, t, there).rebuild(k, n - k, size, stripe);
    false
}

impl Source<'_> {
    // The stripe as it lies on the disks, its shards one behind the other: nothing is laid over it.
    fn gather_stripe(&self, t: usize, to: &mut [u8])
        requires { Lies self.now.g self.now.image.now t × (length to.old ≡ self.now.g.n * shard_bytes self.now.g) }
        ensures { to.new ≡ stripe_seen self.now.g self.now.image.now self.now.there t }
    {
        let size = self.g.n * (self.g.c * SECTOR);
        let from = Source {
            over: 0,
            kept: &self.image[..size],
            ..*self
        };
        Seen {
            from,
            t,
            first: 0,
            count: self.g.c,
        }
        .gather(to);
    }

    // The first refusal that applies to a scrub.
    fn whole_answer(&self, k: usize, t: usize, kept: usize, room: usize) -> Result<(), Refusal>
        ensures { let s = self.now in result ≡ whole_answer s.g k (length s.image.now) t s.there kept room }
    {
        let g = self.g;
        if !fits_image(g, self.image.len()) {
            return Err(Refusal::BadImage);
        }
        if !may_split(g.n, k) {
            return Err(Refusal::BadImage);
        }
        if !has_stripe(g, t) {
            return Err(Refusal::BadBlock);
        }
        if !none_lost(g.n, t, self.there) {
            return Err(Refusal::NotNow);
        }
        if kept != g.n * (g.c * SECTOR) {
            return Err(Refusal::BadBuffer);
        }
        if room != g.n * (g.c * SECTOR) {
            return Err(Refusal::BadBuffer);
        }
        Ok(())
    }

    // Scrubs stripe t as it is seen, with `room` for all of it to work in; only where no shard is lost.
    pub fn scrub(&self, k: usize, t: usize, room: &mut [u8]) -> Result<Verdict, Refusal>
        ensures { let s = self.now in FoundBy (whole_answer s.g k (length s.image.now) t s.there (length s.kept.now) (length room.old)) (λ v. Says k (s.g.n - k) (shard_bytes s.g) (row_seen s.g s.image.now s.there s.over s.kept.now t 0 s.g.c) (Ok v)) (room.new ≡ room.old) result }
    {
        self.whole_answer(k, t, self.kept.len(), room.len())?;
        let g = self.g;
        Seen {
            from: *self,
            t,
            first: 0,
            count: g.c,
        }
        .gather(room);
        Ok(code::scrub(k, g.n - k, g.c * SECTOR, room).unwrap())
    }

    // Reads stripe t as it lies on the disks, scrubs it, and mends an accused shard: what `stripe` then holds is to be written. Only where
    // no shard is lost.
    pub fn mend(&self, k: usize, t: usize, stripe: &mut [u8]) -> Result<Verdict, Refusal>
        ensures { let s = self.now in FoundBy (whole_answer s.g k (length s.image.now) t s.there (length stripe.old) (length stripe.old)) (λ v. Repaired k (s.g.n - k) (shard_bytes s.g) (Ok v) (stripe_seen s.g s.image.now s.there t) stripe.new) (stripe.new ≡ stripe.old) result }
    {
        self.whole_answer(k, t, stripe.len(), stripe.len())?;
        self.gather_stripe(t, stripe);
        let g = self.g;
        Ok(code::repair(k, g.n - k, g.c * SECTOR, stripe).unwrap())
    }

    // The first refusal that applies to a write.
    fn prepare_answer(
        &self,
        k: usize,
        t: usize,
        i: usize,
        bytes: usize,
        room: usize,
    ) -> Result<(), Refusal>
        ensures { let s = self.now in result ≡ prepare_answer s.g k (length s.image.now) t i s.there bytes room }
    {
        let g = self.g;
        if !fits_image(g, self.image.len()) {
            return Err(Refusal::BadImage);
        }
        if !may_split(g.n, k) {
            return Err(Refusal::BadImage);
        }
        if !has_stripe(g, t) {
            return Err(Refusal::BadBlock);
        }
        if k <= i {
            return Err(Refusal::BadBlock);
        }
        if !few_lost(g.n, k, t, self.there) {
            return Err(Refusal::TooFew);
        }
        if bytes != g.c * SECTOR {
            return Err(Refusal::BadBuffer);
        }
        if room != g.n * (g.c * SECTOR) {
            return Err(Refusal::BadBuffer);
        }
        Ok(())
    }

    // Restores the stripe, puts the block's bytes at shard i, and computes the parity.
    fn write_block(&self, k: usize, t: usize, i: usize, bytes: &[u8], stripe: &mut [u8]) -> bool
        requires { Lies self.now.g self.now.image.now t × Splits self.now.g.n k × (i < k) × (length bytes.now ≡ shard_bytes self.now.g) × (length stripe.old ≡ self.now.g.n * shard_bytes self.now.g) }
        ensures { PreparedBy self.now.g k self.now.image.now self.now.there t i bytes.now result stripe.new }
    {
        let g = self.g;
        let size = g.c * SECTOR;
        self.gather_stripe(t, stripe);
        let all = restore(g.n, k, t, self.there, size, stripe);
        let at = i * size;
        stripe[at..at + size].copy_from_slice(bytes);
        let _ = code::encode(k, g.n - k, size, stripe);
        all
    }

    // The stripe that a write of block i of stripe t puts on the disks, of which what the write changes is then written: the stripe as it
    // lies there, with what is lost rebuilt or an accused shard mended, and the block's new bytes and their parity.
    pub fn prepare(
        &self,
        k: usize,
        t: usize,
        i: usize,
        bytes: &[u8],
        stripe: &mut [u8],
    ) -> Result<bool, Refusal>
        ensures { let s = self.now in AfterPrepare (prepare_answer s.g k (length s.image.now) t i s.there (length bytes.now) (length stripe.old)) s.g k s.image.now s.there t i bytes.now result stripe.old stripe.new }
    {
        self.prepare_answer(k, t, i, bytes.len(), stripe.len())?;
        Ok(self.write_block(k, t, i, bytes, stripe))
    }
}
