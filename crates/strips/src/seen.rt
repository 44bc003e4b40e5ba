// Sectors of a stripe's shards as they are seen: from the image, or from a stripe that is kept beside it.
ghost use Rattle.std.specs.Prelude.{◌≡◌, true, ◌&&◌, ◌+◌, ◌*◌, ◌≤◌, ◌<◌, leb, ltb, length, take, drop, replicate};
ghost use Rattle.disk.specs.Limits.{sector_bytes};
ghost use Rattle.disk.specs.Geometry.{in_range, stripes_of};
ghost use Rattle.disk.specs.Image.{place};
ghost use Rattle.strips.specs.Seen.{shard_seen, row_seen};
ghost use Rattle.strips.specs.Answers.{part_of, fetch_answer, after_fetch, shard_answer, after_shard, Part};

use disk::geometry::{Geometry, strip};
use disk::limits::{FIRST_STRIP, SECTOR};
use disk::mask::has;
use disk::refusal::Refusal;
use disk::sector::fits_image;

// Copies the bytes of some sectors, as many as the part has room for, from sector s of slot d on, with `per` sectors to a slot.
fn copy_sectors(from: &[u8], per: usize, d: usize, s: usize, part: &mut [u8])
    requires { place per d s + length part.old ≤ length from.now }
    ensures { part.new ≡ take (length part.old) (drop (place per d s) from.now) }
{
    let at = (d * per + s) * SECTOR;
    let e = at + part.len();
    part.copy_from_slice(&from[at..e]);
}

// Where the shards of a stripe are taken from: of the slots in `over` from the stripe that is kept, of the others in `there` from the
// image; zeros for the rest. Any values may be given: the functions refuse what is out of range.
#[derive(Clone, Copy)]
pub struct Source<'a> {
    pub image: &'a [u8],
    pub g: Geometry,
    pub there: u64,
    pub over: u64,
    pub kept: &'a [u8],
}

// Sectors first .. first + count of the shards of stripe t, as they are seen.
#[derive(Clone, Copy)]
pub(crate) struct Seen<'a> {
    pub(crate) from: Source<'a>,
    pub(crate) t: usize,
    pub(crate) first: usize,
    pub(crate) count: usize,
    ghost part: { Part from.g from.image.now from.kept.now t first count },
}

impl Seen<'_> {
    // Those of shard r.
    pub(crate) fn take_shard(self, r: usize, part: &mut [u8])
        requires { (r < self.from.g.n) × (length part.old ≡ self.count * sector_bytes) }
        ensures { let s = self.entry in part.new ≡ shard_seen s.from.g s.from.image.now s.from.there s.from.over s.from.kept.now s.t s.first s.count r }
    {
        let g = self.from.g;
        let d = (r + self.t) % g.n;
        if has(self.from.over, d) {
            copy_sectors(self.from.kept, g.c, r, self.first, part);
            return;
        }
        if has(self.from.there, d) {
            copy_sectors(
                self.from.image,
                g.sectors,
                d,
                FIRST_STRIP + self.t * g.c + self.first,
                part,
            );
            return;
        }
        part.fill(0);
    }

    // Those of every shard, one behind the other.
    pub(crate) fn gather(self, to: &mut [u8])
        requires { length to.old ≡ self.from.g.n * (self.count * sector_bytes) }
        ensures { let s = self.entry in to.new ≡ row_seen s.from.g s.from.image.now s.from.there s.from.over s.from.kept.now s.t s.first s.count }
    {
        let size = self.count * SECTOR;
        for r in 0..self.from.g.n {
            let at = r * size;
            self.take_shard(r, &mut to[at..at + size]);
        }
    }
}

// Whether a strip of c sectors has the sectors first .. first + count, one at least.
fn within(c: usize, first: usize, count: usize) -> bool
    ensures { result ≡ (leb 1 count && leb (first + count) c) }
{
    1 <= count && count <= c && first <= c - count
}

// Whether there is a stripe t.
pub fn has_stripe(g: Geometry, t: usize) -> bool
    ensures { result ≡ (in_range g && ltb t (stripes_of g)) }
{
    strip(g, t).is_ok()
}

// Whether there is a stripe t, and its strips have these sectors.
#[tactic(auto, unfolding(crate::specs::Answers::part_of))]
pub(crate) fn has_part(g: Geometry, t: usize, first: usize, count: usize) -> bool
    requires { in_range g ≡ true }
    ensures { result ≡ part_of g t first count }
{
    has_stripe(g, t) && within(g.c, first, count)
}

impl Source<'_> {
    // The first refusal that applies to a fetch.
    fn fetch_answer(&self, t: usize, first: usize, count: usize, room: usize) -> Result<(), Refusal>
        ensures { let s = self.now in result ≡ fetch_answer s.g (length s.image.now) t first count (length s.kept.now) room }
    {
        let g = self.g;
        if !fits_image(g, self.image.len()) {
            return Err(Refusal::BadImage);
        }
        if !has_part(g, t, first, count) {
            return Err(Refusal::BadBlock);
        }
        if self.kept.len() != g.n * (g.c * SECTOR) {
            return Err(Refusal::BadBuffer);
        }
        if room != g.n * (count * SECTOR) {
            return Err(Refusal::BadBuffer);
        }
        Ok(())
    }

    // Fetches sectors first .. first + count of every shard of stripe t, one behind the other. A refusal changes nothing.
    pub fn fetch(&self, t: usize, first: usize, count: usize, to: &mut [u8]) -> Result<(), Refusal>
        ensures { let s = self.now in (result ≡ fetch_answer s.g (length s.image.now) t first count (length s.kept.now) (length to.old)) × (to.new ≡ after_fetch result s.g s.image.now s.there s.over s.kept.now t first count to.old) }
    {
        self.fetch_answer(t, first, count, to.len())?;
        Seen {
            from: *self,
            t,
            first,
            count,
        }
        .gather(to);
        Ok(())
    }

    // The first refusal that applies to a fetch of one shard.
    fn shard_answer(&self, t: usize, r: usize, room: usize) -> Result<(), Refusal>
        ensures { let s = self.now in result ≡ shard_answer s.g (length s.image.now) t r (length s.kept.now) room }
    {
        let g = self.g;
        if !fits_image(g, self.image.len()) {
            return Err(Refusal::BadImage);
        }
        if !has_part(g, t, 0, g.c) {
            return Err(Refusal::BadBlock);
        }
        if g.n <= r {
            return Err(Refusal::BadBlock);
        }
        if self.kept.len() != g.n * (g.c * SECTOR) {
            return Err(Refusal::BadBuffer);
        }
        if room != g.c * SECTOR {
            return Err(Refusal::BadBuffer);
        }
        Ok(())
    }

    // Fetches shard r of stripe t alone, all its sectors, in the same way. A refusal changes nothing.
    pub fn fetch_shard(&self, t: usize, r: usize, to: &mut [u8]) -> Result<(), Refusal>
        ensures { let s = self.now in (result ≡ shard_answer s.g (length s.image.now) t r (length s.kept.now) (length to.old)) × (to.new ≡ after_shard result s.g s.image.now s.there s.over s.kept.now t r to.old) }
    {
        self.shard_answer(t, r, to.len())?;
        Seen {
            from: *self,
            t,
            first: 0,
            count: self.g.c,
        }
        .take_shard(r, to);
        Ok(())
    }
}
