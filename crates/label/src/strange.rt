// Labels of another shelf or slot. A disk that was theirs may hold them, and who gives it to this slot has to know.
ghost use Rattle.std.specs.Prelude.{◌≡◌};
ghost use Rattle.label.specs.Strange.{own, strange_of};

use crate::codec::decode;
use crate::fields::Label;
use crate::newest::same_shelf;
use disk::number::byte_at;

// The place of the slot number.
const SLOT: usize = 12;

// Whether a label is of l's shelf and of slot d.
#[tactic(auto, unfolding(crate::specs::Strange::own))]
fn is_own(l: Label, d: usize, x: Label) -> bool
    ensures { result ≡ own l d x }
{
    same_shelf(l, x) && x.slot == d
}

// The generation of the label that a sector's bytes are, if it is valid with the slot number that it carries itself, in sector
// `place`, and is not of l's shelf or not of slot d. 0 where the sector holds no such label.
#[tactic(auto, unfolding(crate::specs::Strange::strange_of, crate::specs::Valid::label_at))]
pub fn strange(sector: &[u8], l: Label, d: usize, place: u64) -> u64
    ensures { result ≡ strange_of sector.now l d place }
{
    let slot = byte_at(sector, SLOT) as usize;
    match decode(sector, slot, place) {
        Some(x) if !is_own(l, d, x) => x.generation,
        _ => 0,
    }
}
