// What a write keeps in the work area: the shards of its stripe, one behind the other; and the sectors of a slot's record of its
// own.
ghost use Rattle.std.specs.Prelude.{◌≡◌, ◌≤◌, ◌<◌};
ghost use Rattle.disk.specs.Limits.{most_c, most_sectors};
ghost use Rattle.shelf.specs.Kept.{kept_of, part_of, logged_answer, after_logged};

use disk::geometry::{Geometry, shard};
use disk::limits::SECTOR;
use disk::refusal::Refusal;
use record::stamp::Stamp;
use record::tail::Tail;

// The shard that lies in slot d, of the stripe that the work area begins with; the empty part where there is none.
pub(crate) fn kept(work: &[u8], g: Geometry, stripe: usize, d: usize) -> &[u8]
    requires { g.c ≤ most_c }
    ensures { result.now ≡ kept_of g stripe d work.now }
{
    let Ok(r) = shard(g, stripe, d) else {
        return &[];
    };
    let at = r * g.c * SECTOR;
    work.get(at..at + g.c * SECTOR).unwrap_or(&[])
}

// Sector j of a strip; the empty part where it has none.
pub(crate) fn part_of(strip: &[u8], j: usize) -> &[u8]
    requires { j < most_sectors }
    ensures { result.now ≡ part_of strip.now j }
{
    let at = j * SECTOR;
    strip.get(at..at + SECTOR).unwrap_or(&[])
}

// Writes sector j of the record of a strip of c sectors: its c log sectors, then the tail. A refusal changes nothing.
#[tactic(auto, unfolding(crate::specs::Kept::logged_answer, crate::specs::Kept::record_sector))]
pub(crate) fn record_sector(
    tail: Tail,
    strip: &[u8],
    c: usize,
    j: usize,
    out: &mut [u8],
) -> Result<(), Refusal>
    requires { j < most_sectors }
    ensures { (result ≡ logged_answer c j strip.now out.old) × (out.new ≡ after_logged result tail c j strip.now out.old) }
{
    if j < c {
        return record::log::encode(tail.stamp, part_of(strip, j), out);
    }
    if c < j {
        return Err(Refusal::NotNow);
    }
    record::tail::encode(tail, strip, c, out)
}
