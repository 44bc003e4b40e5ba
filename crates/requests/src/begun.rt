// What the requests share.
ghost use Rattle.std.specs.Prelude.{◌≡◌, cond, ◌≤◌, leb};
ghost use Rattle.disk.specs.Limits.{most_n};
ghost use Rattle.requests.specs.Begun.{work_bytes, slots_but};

use disk::geometry::strip_length;
use disk::limits::{LEAST_N, MOST_N, SECTOR};
use disk::mask::{has, with_slot};

// The bytes of the work area that goes with a shelf of n slots and strips of c sectors: each slot's strip twice. 0 where there
// is no such shelf.
#[tactic(auto, using(disk::specs::Geometry::strip_length_lem, disk::specs::Geometry::product_le), unfolding(crate::specs::Begun::work_bytes))]
pub fn work_bytes(n: usize, c: usize) -> usize
    ensures { result ≡ work_bytes n c }
{
    if (LEAST_N..=MOST_N).contains(&n) && strip_length(c) {
        2 * n * c * SECTOR
    } else {
        0
    }
}

// The slots below n that are not absent.
pub(crate) fn slots_but(absent: u64, n: usize) -> u64
    requires { n ≤ most_n }
    ensures { result ≡ slots_but absent n }
{
    (0..n).filter(|&d| !has(absent, d)).fold(0, with_slot)
}

// The same of any n; none where there are not so many slots.
pub fn present_slots(absent: u64, n: usize) -> u64
    ensures { result ≡ cond (leb n most_n) (slots_but absent n) 0 }
{
    if n <= MOST_N { slots_but(absent, n) } else { 0 }
}
