// Whether the strips of a stripe that are there and believed contradict each other: with what is lost filled in, an equation doesn't
// hold. Where as many are lost as there is parity, they cannot.
ghost use Rattle.std.specs.Prelude.{◌≡◌, true, ◌+◌, ◌-◌, ◌*◌, ◌≤◌, ◌<◌, length};
ghost use Rattle.disk.specs.Limits.{sector_bytes};
ghost use Rattle.disk.specs.Geometry.{in_range, stripes_of, Splits};
ghost use Rattle.disk.specs.Image.{fits_image};
ghost use Rattle.position.specs.Search.{some};
ghost use Rattle.strips.specs.Seen.{shard_bytes};
ghost use Rattle.rebuilds.specs.Survivors.{is_sound, spare, sector_holds, stripe_holds, contradicted, Stripe};

use code::Verdict;
use disk::geometry::Geometry;
use disk::limits::{MOST_N, SECTOR};
use label::fields::Label;
use shelf::fill::seen_slots;
use strips::lost::Lost;
use strips::seen::Source;

// Whether all equations hold.
fn is_sound(said: Result<Verdict, field::Refusal>) -> bool
    ensures { result ≡ is_sound said }
{
    matches!(said, Ok(Verdict::Sound))
}

// A stripe that can be read, with k data shards, and at most as many shards lost as there is parity. Nothing is laid over it.
#[derive(Clone, Copy)]
struct Readable<'a> {
    from: Source<'a>,
    k: usize,
    t: usize,
    ghost can: { Stripe from.g k from.image.now from.there t },
    ghost plain: { from.over ≡ 0 },
    ghost keeps: { length from.kept.now ≡ from.g.n * shard_bytes from.g },
}

impl Readable<'_> {
    // Whether the equations hold in sector j of the stripe, with what is lost filled in. The row is to work in.
    fn sector_holds(&self, j: usize, row: &mut [u8]) -> bool
        requires { (j < self.now.from.g.c) × (length row.old ≡ self.now.from.g.n * sector_bytes) }
        ensures { let s = self.now in result ≡ sector_holds s.from.g s.k s.from.image.now s.from.there s.t j }
    {
        let g = self.from.g;
        let m = g.n - self.k;
        let _ = self.from.fetch(self.t, j, 1, row);
        let _ = Lost::of(g, self.t, self.from.there).rebuild(self.k, m, SECTOR, row);
        is_sound(code::scrub(self.k, m, SECTOR, row))
    }

    // Whether they hold in every sector. A loop and no `all`: what the library says of `all` serves a closure that changes nothing, and each
    // turn works in the row.
    fn stripe_holds(&self, row: &mut [u8]) -> bool
        requires { length row.old ≡ self.now.from.g.n * sector_bytes }
        ensures { let s = self.now in result ≡ stripe_holds s.from.g s.k s.from.image.now s.from.there s.t }
    {
        for j in 0..self.from.g.c {
            if !self.sector_holds(j, row) {
                return false;
            }
        }
        true
    }
}

// Whether fewer shards are lost than there is parity.
fn has_spare(g: Geometry, k: usize, there: u64, t: usize) -> bool
    requires { (in_range g ≡ true) × (t < stripes_of g) × (k ≤ g.n) }
    ensures { result ≡ spare g k there t }
{
    Lost::of(g, t, there).len() < g.n - k
}

// Whether what is there and believed of stripe t contradicts itself.
fn contradicts(image: &[u8], g: Geometry, l: Label, absent: u64, t: usize) -> bool
    requires { (fits_image g (length image.now) ≡ true) × Splits g.n l.k × (t < stripes_of g) }
    ensures { result ≡ contradicted g l.k image.now l absent t }
{
    let there = seen_slots(g, l, absent, t);
    if !has_spare(g, l.k, there, t) {
        return false;
    }
    let mut room = [0u8; MOST_N * SECTOR];
    let size = g.n * SECTOR;
    let from = Source {
        image,
        g,
        there,
        over: 0,
        kept: &image[..g.n * (g.c * SECTOR)],
    };
    !Readable { from, k: l.k, t }.stripe_holds(&mut room[..size])
}

// Whether one of `count` stripes does, from stripe `first` on.
pub(crate) fn some_contradict(
    image: &[u8],
    g: Geometry,
    l: Label,
    absent: u64,
    first: usize,
    count: usize,
) -> bool
    requires { (fits_image g (length image.now) ≡ true) × Splits g.n l.k × (first + count ≤ stripes_of g) }
    ensures { result ≡ some count (λ i. contradicted g l.k image.now l absent (first + i)) }
{
    (0..count).any(|i| contradicts(image, g, l, absent, first + i))
}
