// The tail, a record's last sector: the stamp, the stripe, the shards that the write changes, and the last bytes of each
// of the strip's sectors. What can't be a write's tail is none: it is garbage, or was never written.
ghost use Rattle.std.specs.Prelude.{◌≡◌, ◌*◌, ◌≤◌, length};
ghost use Rattle.disk.specs.Limits.{sector_bytes, most_c};
ghost use Rattle.record.specs.Tail.{tail_at, may_be, decode_of, with_tail, pasted, tail_answer, after_tail};

use crate::layout::{BODY, REST, RESTS_AT, SHARDS_AT, STRIPE_AT};
use crate::stamp::{Stamp, is_zero, put_stamp, stamp_at};
use disk::geometry::strip_length;
use disk::limits::SECTOR;
use disk::mask::all_below;
use disk::number::{put_u64, u64_at};
use disk::refusal::Refusal;

#[derive(Clone, Copy)]
pub struct Tail {
    pub stamp: Stamp,
    pub stripe: u64,
    pub shards: u64,
}

// The fields of a tail.
fn tail_at(sector: &[u8]) -> Tail
    ensures { result ≡ tail_at sector.now }
{
    Tail {
        stamp: stamp_at(sector),
        stripe: u64_at(sector, STRIPE_AT),
        shards: u64_at(sector, SHARDS_AT),
    }
}

// Whether a write can have such a tail, on a shelf of n slots with so many stripes, when this generation is settled.
#[tactic(auto, unfolding(crate::specs::Tail::may_be))]
fn may_be(tail: Tail, stripes: u64, n: usize, generation: u64) -> bool
    ensures { result ≡ may_be tail stripes n generation }
{
    !is_zero(tail.stamp)
        && tail.stamp.epoch <= generation
        && tail.stripe < stripes
        && tail.shards != 0
        && all_below(tail.shards, n)
}

// The tail that a sector holds, if it is one.
#[tactic(auto, unfolding(crate::specs::Tail::decode_of))]
pub fn decode(sector: &[u8], stripes: u64, n: usize, generation: u64) -> Option<Tail>
    ensures { result ≡ decode_of sector.now stripes n generation }
{
    let tail = tail_at(sector);
    may_be(tail, stripes, n, generation).then_some(tail)
}

// Writes the fields of a tail.
fn put_fields(out: &mut [u8], tail: Tail)
    ensures { out.new ≡ with_tail out.old tail }
{
    put_stamp(out, tail.stamp);
    put_u64(out, STRIPE_AT, tail.stripe);
    put_u64(out, SHARDS_AT, tail.shards);
}

// Writes the last bytes of each of the strip's c sectors.
fn put_rests(out: &mut [u8], strip: &[u8], c: usize)
    requires { (length out.old ≡ sector_bytes) × (length strip.now ≡ c * sector_bytes) × (c ≤ most_c) }
    ensures { out.new ≡ pasted c strip.now out.old }
{
    for s in 0..c {
        let at = s * SECTOR + BODY;
        let to = RESTS_AT + s * REST;
        out[to..to + REST].copy_from_slice(&strip[at..at + REST]);
    }
}

// Writes the tail of a record of the strip, which has c sectors. A refusal changes nothing.
#[tactic(auto, using(disk::specs::Geometry::strip_length_lem), unfolding(crate::specs::Tail::tail_answer))]
pub fn encode(tail: Tail, strip: &[u8], c: usize, out: &mut [u8]) -> Result<(), Refusal>
    ensures { (result ≡ tail_answer c (length strip.now) (length out.old)) × (out.new ≡ after_tail result tail c strip.now out.old) }
{
    if !strip_length(c) {
        return Err(Refusal::BadImage);
    }
    if strip.len() != c * SECTOR || out.len() != SECTOR {
        return Err(Refusal::BadBuffer);
    }
    out.fill(0);
    put_fields(out, tail);
    put_rests(out, strip, c);
    Ok(())
}
