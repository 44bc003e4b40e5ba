// The record as it stands in a slot's log area, c + 1 sectors from the area's first on: where it is, its log sectors,
// whether it is complete, and the strip that it holds. No checksum decides: a sector is written wholly or not at all, and
// the stamps tell which were.
ghost use Rattle.std.specs.Prelude.{◌≡◌, ◌+◌, ◌*◌, ◌≤◌, ◌<◌, length};
ghost use Rattle.disk.specs.Limits.{sector_bytes};
ghost use Rattle.record.specs.Stamp.{stamp_at};
ghost use Rattle.record.specs.Log.{part, area_of, log_answer, after_log, stamps_same, complete_of, restore_answer, after_restore};

use crate::layout::{BODY, REST, RESTS_AT, STAMP};
use crate::stamp::{Stamp, is_zero, put_stamp, stamp_at};
use disk::geometry::{Geometry, strip_length};
use disk::limits::{FIRST_LOG, SECTOR};
use disk::refusal::Refusal;
use disk::sector::fits_image;

// The c + 1 sectors of slot d's record, a part of the image; the empty part where the image is not this shelf's, or has
// no such slot.
#[tactic(auto, using(crate::proofs::Places::area_fits), unfolding(crate::specs::Log::area_of))]
pub fn area(image: &[u8], g: Geometry, d: usize) -> &[u8]
    ensures { result.now ≡ area_of g image.now d }
{
    if !fits_image(g, image.len()) || g.n <= d {
        return &[];
    }
    let at = (d * g.sectors + FIRST_LOG) * SECTOR;
    &image[at..at + (g.c + 1) * SECTOR]
}

// Writes the log sector of one of the strip's sectors, which has these bytes. A refusal changes nothing.
#[tactic(auto, unfolding(crate::specs::Log::log_answer))]
pub fn encode(stamp: Stamp, bytes: &[u8], out: &mut [u8]) -> Result<(), Refusal>
    ensures { (result ≡ log_answer (length bytes.now) (length out.old)) × (out.new ≡ after_log result stamp bytes.now out.old) }
{
    if bytes.len() != SECTOR || out.len() != SECTOR {
        return Err(Refusal::BadBuffer);
    }
    put_stamp(out, stamp);
    out[STAMP..].copy_from_slice(&bytes[..BODY]);
    Ok(())
}

// The stamp of sector s of a record's area.
fn stamp_of(area: &[u8], s: usize) -> Stamp
    requires { s * sector_bytes + sector_bytes ≤ length area.now }
    ensures { result ≡ stamp_at (part area.now s) }
{
    let at = s * SECTOR;
    stamp_at(&area[at..at + SECTOR])
}

// Whether the first c sectors have this stamp.
fn stamps_same(area: &[u8], c: usize, stamp: Stamp) -> bool
    requires { c * sector_bytes ≤ length area.now }
    ensures { result ≡ stamps_same c area.now stamp }
{
    (0..c).all(|s| stamp_of(area, s) == stamp)
}

// Whether an area holds a complete record of a strip of c sectors.
#[tactic(auto, using(disk::specs::Geometry::strip_length_lem), unfolding(crate::specs::Log::complete_of))]
pub fn complete(area: &[u8], c: usize) -> bool
    ensures { result ≡ complete_of area.now c }
{
    if !strip_length(c) || area.len() != (c + 1) * SECTOR {
        return false;
    }
    let stamp = stamp_of(area, c);
    !is_zero(stamp) && stamps_same(area, c, stamp)
}

// Gives sector s of the strip back from a record's area. A refusal changes nothing.
#[tactic(auto, using(disk::specs::Geometry::strip_length_lem), unfolding(crate::specs::Log::restore_answer))]
pub fn restore(area: &[u8], c: usize, s: usize, out: &mut [u8]) -> Result<(), Refusal>
    ensures { (result ≡ restore_answer c s (length area.now) (length out.old)) × (out.new ≡ after_restore result area.now c s out.old) }
{
    if !strip_length(c) {
        return Err(Refusal::BadImage);
    }
    if c <= s {
        return Err(Refusal::BadBlock);
    }
    if area.len() != (c + 1) * SECTOR || out.len() != SECTOR {
        return Err(Refusal::BadBuffer);
    }
    let first = s * SECTOR + STAMP;
    out[..BODY].copy_from_slice(&area[first..first + BODY]);
    let last = c * SECTOR + RESTS_AT + s * REST;
    out[BODY..].copy_from_slice(&area[last..last + REST]);
    Ok(())
}
