// The stamp of a write: the generation that start-up settled, and the count of writes since. No stamp is used twice; a
// greater stamp is later, and the epoch goes first. The stamp of zeros is no write's.
ghost use Rattle.std.specs.Prelude.{◌≡◌};
ghost use Rattle.record.specs.Stamp.{stamp_at, with_stamp, zero_stamp, same_stamp, later_of};

use disk::number::{put_u64, u64_at};

#[derive(Clone, Copy, PartialEq, Eq, PartialOrd, Ord)]
pub struct Stamp {
    pub epoch: u64,
    pub count: u64,
}

// No write's.
const ZERO: Stamp = Stamp { epoch: 0, count: 0 };

// The stamp with which a sector begins.
pub fn stamp_at(sector: &[u8]) -> Stamp
    ensures { result ≡ stamp_at sector.now }
{
    Stamp {
        epoch: u64_at(sector, 0),
        count: u64_at(sector, 8),
    }
}

// Writes the stamp at a sector's beginning.
pub(crate) fn put_stamp(sector: &mut [u8], stamp: Stamp)
    ensures { sector.new ≡ with_stamp sector.old stamp }
{
    put_u64(sector, 0, stamp.epoch);
    put_u64(sector, 8, stamp.count);
}

// Whether it is the stamp of zeros.
#[tactic(auto, unfolding(crate::specs::Stamp::zero_stamp))]
pub fn is_zero(a: Stamp) -> bool
    ensures { result ≡ zero_stamp a }
{
    a == ZERO
}

// Whether two stamps are one.
#[tactic(auto, unfolding(crate::specs::Stamp::same_stamp))]
pub fn same(a: Stamp, b: Stamp) -> bool
    ensures { result ≡ same_stamp a b }
{
    a == b
}

// Whether a is later than b.
#[tactic(auto, unfolding(crate::specs::Stamp::later_of))]
pub fn later(a: Stamp, b: Stamp) -> bool
    ensures { result ≡ later_of a b }
{
    a > b
}
