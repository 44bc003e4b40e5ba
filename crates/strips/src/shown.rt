// Sectors of a shard as they are shown: as they are seen where the shard's slot is there, and filled in where it is lost.
ghost use Rattle.std.specs.Prelude.{◌≡◌, true, ◌&&◌, ◌*◌, ◌≤◌, ◌<◌, eqb, length};
ghost use Rattle.disk.specs.Limits.{sector_bytes, most_n, most_c, most_sectors};
ghost use Rattle.disk.specs.Geometry.{Splits};
ghost use Rattle.strips.specs.Seen.{shard_bytes, shard_shown};
ghost use Rattle.strips.specs.Answers.{few_lost, shown_answer, after_shown, Part};

use crate::lost::Lost;
use crate::seen::{Seen, Source, has_part};
use disk::geometry::{Geometry, may_split};
use disk::limits::SECTOR;
use disk::mask::has;
use disk::refusal::Refusal;
use disk::sector::fits_image;

// Whether at most as many shards are lost as there is parity.
pub(crate) fn few_lost(n: usize, k: usize, t: usize, there: u64) -> bool
    requires { (n ≤ most_n) × (k ≤ n) × (t ≤ most_sectors) }
    ensures { result ≡ few_lost n k t there }
{
    Lost::among(n, t, there).len() <= n - k
}

// Some sectors of a shard that is lost, with room for those of every shard.
fn rebuild_shard(of: Seen<'_>, k: usize, r: usize, room: &mut [u8], out: &mut [u8])
    requires { Splits of.from.g.n k × (few_lost of.from.g.n k of.t of.from.there ≡ true) × (r < of.from.g.n) × (length room.old ≡ of.from.g.n * (of.count * sector_bytes)) × (length out.old ≡ of.count * sector_bytes) }
    ensures { let s = of.entry in out.new ≡ shard_shown s.from.g k s.from.image.now s.from.there s.from.over s.from.kept.now s.t s.first s.count r }
{
    let size = of.count * SECTOR;
    of.gather(room);
    let _ = Lost::among(of.from.g.n, of.t, of.from.there).rebuild(k, of.from.g.n - k, size, room);
    let at = r * size;
    out.copy_from_slice(&room[at..at + size]);
}

// Whether the three buffers are as long as they must be.
fn sized(g: Geometry, count: usize, kept: usize, room: usize, out: usize) -> bool
    requires { (g.n ≤ most_n) × (g.c ≤ most_c) × (count ≤ most_c) }
    ensures { result ≡ (eqb kept (g.n * shard_bytes g) && (eqb room (g.n * (count * sector_bytes)) && eqb out (count * sector_bytes))) }
{
    kept == g.n * (g.c * SECTOR) && room == g.n * (count * SECTOR) && out == count * SECTOR
}

impl Source<'_> {
    // The first refusal that applies.
    fn shown_answer(
        &self,
        k: usize,
        t: usize,
        r: usize,
        first: usize,
        count: usize,
        room: usize,
        out: usize,
    ) -> Result<(), Refusal>
        ensures { let s = self.now in result ≡ shown_answer s.g k (length s.image.now) t r first count s.there (length s.kept.now) room out }
    {
        let g = self.g;
        if !fits_image(g, self.image.len()) {
            return Err(Refusal::BadImage);
        }
        if !may_split(g.n, k) {
            return Err(Refusal::BadImage);
        }
        if !has_part(g, t, first, count) {
            return Err(Refusal::BadBlock);
        }
        if g.n <= r {
            return Err(Refusal::BadBlock);
        }
        if !few_lost(g.n, k, t, self.there) {
            return Err(Refusal::TooFew);
        }
        if !sized(g, count, self.kept.len(), room, out) {
            return Err(Refusal::BadBuffer);
        }
        Ok(())
    }

    // Sectors first .. first + count of shard r of stripe t, with k data shards, whatever is lost of the stripe. `room` is to work in: as
    // long as these sectors of all shards. A refusal changes nothing of `out`.
    pub fn shown(
        &self,
        k: usize,
        t: usize,
        r: usize,
        first: usize,
        count: usize,
        room: &mut [u8],
        out: &mut [u8],
    ) -> Result<(), Refusal>
        ensures { let s = self.now in (result ≡ shown_answer s.g k (length s.image.now) t r first count s.there (length s.kept.now) (length room.old) (length out.old)) × (out.new ≡ after_shown result s.g k s.image.now s.there s.over s.kept.now t first count r out.old) }
    {
        self.shown_answer(k, t, r, first, count, room.len(), out.len())?;
        let seen = Seen {
            from: *self,
            t,
            first,
            count,
        };
        if has(self.there, (r + t) % self.g.n) {
            seen.take_shard(r, out);
        } else {
            rebuild_shard(seen, k, r, room, out);
        }
        Ok(())
    }
}
