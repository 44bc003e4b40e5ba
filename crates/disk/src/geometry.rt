// Where things lie on a shelf of n disks with S sectors each and strips of c sectors. Nothing is assumed of the numbers:
// a geometry that is out of range is BAD_IMAGE, a block, stripe, shard or slot that there is not is BAD_BLOCK.
ghost use Rattle.std.specs.Prelude.{◌≡◌, true, ◌&&◌, ◌/◌, ◌%◌, ltb, cond, Ok, Err};
ghost use Rattle.disk.specs.Geometry.{strip_length, in_range, splits, in_range_with, image_bytes, stripes_of, strip_of, slot_of, shard_of, blocks_of, block_of, found, placed};
ghost use Rattle.disk.specs.Refusal.{Outcome};
ghost use Rattle.disk.specs.declared.refusal.Refusal.TheVariants.{BadBlock};

use crate::limits::{
    FIRST_STRIP, LEAST_K, LEAST_M, LEAST_N, MOST_K, MOST_M, MOST_N, MOST_SECTORS, SECTOR,
};
use crate::refusal::Refusal;

// n, c and S.
#[derive(Clone, Copy)]
pub struct Geometry {
    pub n: usize,
    pub c: usize,
    pub sectors: usize,
}

// A data shard of a stripe.
#[derive(Clone, Copy)]
pub struct DataShard {
    pub stripe: usize,
    pub shard: usize,
}

// Whether a strip may have c sectors.
#[tactic(auto, unfolding(crate::specs::Geometry::strip_length))]
pub fn strip_length(c: usize) -> bool
    ensures { result ≡ strip_length c }
{
    matches!(c, 1 | 2 | 4 | 8)
}

// Whether n, c and S are those of a shelf.
#[tactic(auto, using(crate::specs::Geometry::strip_length_lem), unfolding(crate::specs::Geometry::in_range))]
pub fn in_range(g: Geometry) -> bool
    ensures { result ≡ in_range g }
{
    (LEAST_N..=MOST_N).contains(&g.n)
        && strip_length(g.c)
        && (FIRST_STRIP + g.c..=MOST_SECTORS).contains(&g.sectors)
}

// Whether n slots may hold k data shards and some parity.
#[tactic(auto, unfolding(crate::specs::Geometry::splits))]
pub fn may_split(n: usize, k: usize) -> bool
    ensures { result ≡ splits n k }
{
    (LEAST_K..=MOST_K).contains(&k) && (k + LEAST_M..=k + MOST_M).contains(&n)
}

// Whether n, c, S and k are those of a shelf.
#[tactic(auto, unfolding(crate::specs::Geometry::in_range_with))]
pub fn in_range_with(g: Geometry, k: usize) -> bool
    ensures { result ≡ in_range_with g k }
{
    in_range(g) && may_split(g.n, k)
}

// The length of the image.
#[tactic(auto, using(crate::specs::Geometry::in_range_lem, crate::specs::Geometry::sectors_le), unfolding(crate::specs::Geometry::image_bytes))]
pub fn image_len(g: Geometry) -> Result<usize, Refusal>
    ensures { result ≡ found (in_range g) true (image_bytes g) }
{
    if !in_range(g) {
        return Err(Refusal::BadImage);
    }
    Ok(g.n * g.sectors * SECTOR)
}

// T, the number of stripes.
#[tactic(auto, using(crate::specs::Geometry::in_range_lem), unfolding(crate::specs::Geometry::stripes_of))]
pub fn stripes(g: Geometry) -> Result<usize, Refusal>
    ensures { result ≡ found (in_range g) true (stripes_of g) }
{
    if !in_range(g) {
        return Err(Refusal::BadImage);
    }
    Ok((g.sectors - FIRST_STRIP) / g.c)
}

// T, with k data shards to a stripe.
#[tactic(auto, unfolding(crate::specs::Geometry::in_range_with))]
fn stripes_with(g: Geometry, k: usize) -> Result<usize, Refusal>
    ensures { result ≡ found (in_range_with g k) true (stripes_of g) }
{
    if !in_range_with(g, k) {
        return Err(Refusal::BadImage);
    }
    stripes(g)
}

// Refuses the number of a block, stripe, shard or slot that there is not: there are those below `many`.
fn below(x: usize, many: usize) -> Result<(), Refusal>
    ensures { result ≡ cond {A = Outcome} (ltb x many) (Ok tt) (Err BadBlock) }
{
    if x < many {
        Ok(())
    } else {
        Err(Refusal::BadBlock)
    }
}

// The first sector of strip t.
#[tactic(auto, using(crate::specs::Geometry::in_range_lem, crate::proofs::GeometryLaws::strip_inside), unfolding(crate::specs::Geometry::strip_of))]
pub fn strip(g: Geometry, t: usize) -> Result<usize, Refusal>
    ensures { result ≡ found (in_range g) (ltb t (stripes_of g)) (strip_of g t) }
{
    below(t, stripes(g)?)?;
    Ok(FIRST_STRIP + t * g.c)
}

// The slot of shard r of stripe t.
#[tactic(auto, using(crate::specs::Geometry::in_range_lem, crate::specs::Geometry::stripes_le), unfolding(crate::specs::Geometry::slot_of))]
pub fn slot(g: Geometry, t: usize, r: usize) -> Result<usize, Refusal>
    ensures { result ≡ found (in_range g) (ltb t (stripes_of g) && ltb r g.n) (slot_of g.n t r) }
{
    below(t, stripes(g)?)?;
    below(r, g.n)?;
    Ok((r + t) % g.n)
}

// The shard of stripe t that slot d holds.
#[tactic(auto, using(crate::specs::Geometry::in_range_lem), unfolding(crate::specs::Geometry::shard_of))]
pub fn shard(g: Geometry, t: usize, d: usize) -> Result<usize, Refusal>
    ensures { result ≡ found (in_range g) (ltb t (stripes_of g) && ltb d g.n) (shard_of g.n t d) }
{
    below(t, stripes(g)?)?;
    below(d, g.n)?;
    Ok((d + (g.n - t % g.n)) % g.n)
}

// The number of blocks that the host sees, with k data shards to a stripe.
#[tactic(auto, using(crate::proofs::GeometryLaws::blocks_le), unfolding(crate::specs::Geometry::blocks_of))]
pub fn blocks(g: Geometry, k: usize) -> Result<usize, Refusal>
    ensures { result ≡ found (in_range_with g k) true (blocks_of g k) }
{
    Ok(stripes_with(g, k)? * k)
}

// Where block b lies.
#[tactic(auto, using(crate::specs::Geometry::in_range_with_lem))]
pub fn place(g: Geometry, k: usize, b: usize) -> Result<DataShard, Refusal>
    ensures { result ≡ placed (in_range_with g k) (ltb b (blocks_of g k)) (b / k) (b % k) }
{
    below(b, blocks(g, k)?)?;
    Ok(DataShard {
        stripe: b / k,
        shard: b % k,
    })
}

// The block that is data shard r of stripe t.
#[tactic(auto, using(crate::proofs::GeometryLaws::block_le), unfolding(crate::specs::Geometry::block_of))]
pub fn block(g: Geometry, k: usize, t: usize, r: usize) -> Result<usize, Refusal>
    ensures { result ≡ found (in_range_with g k) (ltb t (stripes_of g) && ltb r k) (block_of k t r) }
{
    below(t, stripes_with(g, k)?)?;
    below(r, k)?;
    Ok(t * k + r)
}
