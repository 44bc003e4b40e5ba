// The slots whose strips a label lets one believe.
ghost use Rattle.std.specs.Prelude.{◌≡◌, cond};
ghost use Rattle.disk.specs.Geometry.{in_range};
ghost use Rattle.disk.specs.Mask.{mask_of};
ghost use Rattle.redo.specs.Decide.{believed};

use disk::geometry::{Geometry, in_range};
use disk::mask::with_slot;
use label::fields::Label;
use redo::belief::believes;

// The slots whose strip of stripe t the label lets one believe; none where n, c and S are not those of a shelf.
pub fn believed_slots(g: Geometry, l: Label, t: usize) -> u64
    ensures { result ≡ cond (in_range g) (mask_of (λ d. believed g l d t) g.n) 0 }
{
    if !in_range(g) {
        return 0;
    }
    (0..g.n)
        .filter(|&d| believes(g, l, d, t))
        .fold(0, with_slot)
}
