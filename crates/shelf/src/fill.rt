// A sector of a strip that is rebuilt: computed from the strips of its stripe that are there and believed.
ghost use Rattle.std.specs.Prelude.{◌≡◌, ◌≤◌, length};
ghost use Rattle.disk.specs.Limits.{most_n, most_c, sector_bytes};
ghost use Rattle.shelf.specs.Act.{in_strips};
ghost use Rattle.shelf.specs.Fill.{seen_slots, stripe_in, rebuild_answer, after_rebuild};

use disk::geometry::{Geometry, in_range, shard};
use disk::limits::{MOST_N, MOST_SECTORS, SECTOR};
use disk::mask::{has, with_slot};
use disk::refusal::Refusal;
use label::fields::Label;
use strips::believed::believed_slots;
use strips::seen::Source;

// The slots whose strip of stripe t is there and believed; none where n, c and S are not those of a shelf.
pub fn seen_slots(g: Geometry, l: Label, absent: u64, t: usize) -> u64
    ensures { result ≡ seen_slots g l absent t }
{
    if !in_range(g) {
        return 0;
    }
    let believed = believed_slots(g, l, t);
    (0..g.n)
        .filter(|&d| has(believed, d) && !has(absent, d))
        .fold(0, with_slot)
}

// The part of the work area that is as long as a stripe; the empty part where it is shorter.
fn stripe_in(work: &[u8], g: Geometry) -> &[u8]
    requires { (g.n ≤ most_n) × (g.c ≤ most_c) }
    ensures { result.now ≡ stripe_in g work.now }
{
    work.get(..g.n * (g.c * SECTOR)).unwrap_or(&[])
}

// Computes sector j of slot d's strip of stripe t. A refusal changes nothing.
pub(crate) fn rebuild(
    l: Label,
    absent: u64,
    g: Geometry,
    d: usize,
    t: usize,
    j: usize,
    work: &[u8],
    image: &[u8],
    out: &mut [u8],
) -> Result<(), Refusal>
    requires { length out.old ≡ sector_bytes }
    ensures { (result ≡ rebuild_answer l absent g d t j work.now image.now) × (out.new ≡ after_rebuild result l absent g d t j work.now image.now out.old) }
{
    let r = shard(g, t, d)?;
    let there = seen_slots(g, l, absent, t);
    let mut room = [0u8; MOST_N * SECTOR];
    let e = g.n * SECTOR;
    let from = Source {
        image,
        g,
        there,
        over: 0,
        kept: stripe_in(work, g),
    };
    from.shown(l.k, t, r, j, 1, &mut room[..e], out)
}

// Whether sector x is one of `count` strips of c sectors, from strip `first` on.
#[tactic(auto, unfolding(crate::specs::Act::in_strips))]
pub(crate) fn in_strips(first: usize, count: usize, c: usize, x: usize) -> bool
    requires { c ≤ most_c }
    ensures { result ≡ in_strips first count c x }
{
    first <= MOST_SECTORS && count <= MOST_SECTORS && x < count * c
}
