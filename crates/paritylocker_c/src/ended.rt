// The number of a request that is done: 3, and of a rebuild how far it is.
ghost use Rattle.std.specs.Prelude.{◌≡◌};
ghost use Rattle.paritylocker_c.specs.Ended.{mark_reached, rebuilt_number, number_done};

use label::fields::{Label, NO_SLOT};
use stages::state::{Kind, Marks};

// The mark that is reached. The next label has it, unless the slot is healthy; then the strips are added to the mark before.
fn mark_reached(healed: bool, mark: usize, strips: usize, next: usize) -> usize
    ensures { result ≡ mark_reached healed mark strips next }
{
    if healed {
        mark % 4294967296 + strips % 4294967296
    } else {
        next
    }
}

// The number of a rebuild that is done. torn: survivors contradicted each other.
fn rebuilt_number(healed: bool, torn: bool, mark: usize) -> u64
    ensures { result ≡ rebuilt_number healed torn mark }
{
    let ended = if healed { 4 } else { 3 };
    ended + 256 * u64::from(torn) + 65536 * ((mark % 4294967296) as u64)
}

// The number of a request that is done, from the state before its last step.
pub(crate) fn done_number(kind: Kind, now: Label, next: Label, marks: Marks) -> u64
    ensures { result ≡ number_done kind now next marks }
{
    if kind != Kind::Filling {
        return 3;
    }
    let healed = next.rebuilding == NO_SLOT;
    let mark = mark_reached(healed, now.mark, marks.stripe, next.mark);
    rebuilt_number(healed, marks.forward, mark)
}
