// Which slots a label lets start-up look at, and what it believes of them.
ghost use Rattle.std.specs.Prelude.{◌≡◌, ◌&&◌};
ghost use Rattle.disk.specs.Geometry.{in_range};
ghost use Rattle.redo.specs.Decide.{plainly_out, looked, believed};

use disk::geometry::{Geometry, stripes};
use disk::mask::has;
use label::fields::Label;

// Whether the label calls slot d out, and it is not the one being rebuilt.
#[tactic(auto, unfolding(label::specs::Fields::calls_out, crate::specs::Decide::plainly_out))]
pub fn plainly_out(l: Label, d: usize) -> bool
    ensures { result ≡ plainly_out l d }
{
    l.calls_out(d)
}

// Whether slot d's tail is looked at.
#[tactic(auto, unfolding(crate::specs::Decide::looked))]
pub fn looked_at(g: Geometry, l: Label, d: usize) -> bool
    ensures { result ≡ looked g l d }
{
    d < g.n && !plainly_out(l, d)
}

// Whether slot d's strip of stripe t is believed. Where the geometry is out of range, nothing is.
pub fn believes(g: Geometry, l: Label, d: usize, t: usize) -> bool
    ensures { result ≡ (in_range g && believed g l d t) }
{
    looked_at(g, l, d) && stripes(g).is_ok_and(|n| t < n && (!has(l.out, d) || t < l.mark))
}
