// The shards of a stripe whose slots are not in a mask.
ghost use Rattle.std.specs.Prelude.{◌≡◌, ◌+◌, ◌≤◌, ◌<◌, length, take};
ghost use Rattle.disk.specs.Limits.{most_n, most_sectors};
ghost use Rattle.code.specs.Stripes.{Rebuilt};
ghost use Rattle.strips.specs.Seen.{lost_of};
ghost use Rattle.strips.specs.Answers.{lost_in};

use crate::seen::has_stripe;
use disk::geometry::Geometry;
use disk::limits::MOST_N;
use disk::mask::has;

// The lost shards of a stripe, in ascending order: the first `many` of the list.
#[derive(Clone, Copy)]
pub struct Lost {
    list: [u8; MOST_N],
    many: usize,
    ghost within: { many ≤ most_n },
}

impl Lost {
    // Those of a stripe of n shards.
    pub(crate) fn among(n: usize, t: usize, there: u64) -> Lost
        requires { (n ≤ most_n) × (t ≤ most_sectors) }
        ensures { take result.many result.list ≡ lost_of n t there }
    {
        let mut list = [0u8; MOST_N];
        let mut many = 0;
        for r in 0..n {
            if !has(there, (r + t) % n) {
                list[many] = r as u8;
                many += 1;
            }
        }
        Lost { list, many }
    }

    // The shards of stripe t that lie in no slot of the mask; none where there is no such stripe.
    pub fn of(g: Geometry, t: usize, there: u64) -> Lost
        ensures { take result.many result.list ≡ lost_in g t there most_n }
    {
        if has_stripe(g, t) {
            Lost::among(g.n, t, there)
        } else {
            Lost::among(0, 0, there)
        }
    }

    // Their numbers.
    pub fn as_slice(&self) -> &[u8]
        ensures { result.now ≡ take self.now.many self.now.list }
    {
        &self.list[..self.many]
    }

    // How many there are.
    pub fn len(&self) -> usize
        ensures { result ≡ length (take self.now.many self.now.list) }
    {
        self.many
    }

    // Rebuilds them in a stripe of k data shards and m parity shards, of `size` bytes each.
    pub fn rebuild(
        &self,
        k: usize,
        m: usize,
        size: usize,
        stripe: &mut [u8],
    ) -> Result<(), field::Refusal>
        ensures { Rebuilt k m size (take self.now.many self.now.list) result stripe.old stripe.new }
    {
        code::rebuild(k, m, size, self.as_slice(), stripe)
    }
}
