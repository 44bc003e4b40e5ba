// The lost shards of a stripe, in a list of the caller's. Not in `lost`, beside `Lost`: the names of a function and a struct in one module
// differ in more than case.
ghost use Rattle.std.specs.Prelude.{◌≡◌, ◌&&◌, ◌++◌, leb, ltb, length, drop};
ghost use Rattle.disk.specs.Geometry.{in_range, stripes_of};
ghost use Rattle.strips.specs.Answers.{lost_in};

use crate::lost::Lost;
use crate::seen::has_stripe;
use disk::geometry::Geometry;

// Whether there is a stripe t, and room for n shards.
fn listed(g: Geometry, t: usize, room: usize) -> bool
    ensures { result ≡ (in_range g && (ltb t (stripes_of g) && leb g.n room)) }
{
    has_stripe(g, t) && g.n <= room
}

// Writes the shards of stripe t that lie in no slot of the mask to the beginning of the list, in ascending order, and says how many
// there are. None where there is no such stripe, or no room for n of them.
#[tactic(auto, using(crate::specs::Answers::lists_means, crate::specs::Turns::lost_few, std::proofs::lemmas::Grind::common_steps), unfolding(crate::specs::Answers::lost_in))]
pub fn lost(g: Geometry, t: usize, there: u64, list: &mut [u8]) -> usize
    ensures { (result ≡ length (lost_in g t there (length list.old))) × (list.new ≡ lost_in g t there (length list.old) ++ drop (length (lost_in g t there (length list.old))) list.old) }
{
    if !listed(g, t, list.len()) {
        return 0;
    }
    let shards = Lost::among(g.n, t, there);
    list[..shards.len()].copy_from_slice(shards.as_slice());
    shards.len()
}
