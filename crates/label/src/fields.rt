// The numbers of a label, and which of them can be.
ghost use Rattle.std.specs.Prelude.{◌≡◌, true, ◌+◌, ◌^◌, ◌≤◌, ◌<◌};
ghost use Rattle.disk.specs.Limits.{most_k, most_m};
ghost use Rattle.disk.specs.Geometry.{in_range, stripes_of};
ghost use Rattle.label.specs.Fields.{geometry_of, calls_out, fits_of, rebuild_fits};

use disk::geometry::{Geometry, in_range_with, stripes};
use disk::limits::{MOST_K, MOST_M};
use disk::mask::{all_below, has};

#[derive(Clone, Copy, PartialEq, Eq)]
pub struct Label {
    pub k: usize,
    pub m: usize,
    pub slot: usize,
    pub c: usize,
    pub sectors: usize,
    pub shelf: u64,
    pub generation: u64,
    pub out: u64,
    pub rebuilding: usize,
    pub mark: usize,
}

// No slot is being rebuilt.
pub const NO_SLOT: usize = 255;

pub const MOST_GENERATION: u64 = 9223372036854775807;

impl Label {
    // n, c and S. Any label is taken, also one of so many shards that no number counts them.
    pub fn geometry(self) -> Geometry
        ensures { self.k + self.m < 2 ^ 64 → result ≡ geometry_of self }
    {
        Geometry {
            n: self.k.saturating_add(self.m),
            c: self.c,
            sectors: self.sectors,
        }
    }

    // Whether the label calls slot d out, and it is not the one being rebuilt.
    #[tactic(auto, unfolding(crate::specs::Fields::calls_out))]
    pub fn calls_out(self, d: usize) -> bool
        ensures { result ≡ calls_out self d }
    {
        has(self.out, d) && d != self.rebuilding
    }
}

// Whether the slot being rebuilt, and the mark, can be.
#[tactic(auto, unfolding(crate::specs::Fields::rebuild_fits))]
fn rebuild_fits(l: Label) -> bool
    requires { (l.k ≤ most_k) × (l.m ≤ most_m) × (in_range (geometry_of l) ≡ true) }
    ensures { result ≡ rebuild_fits l }
{
    if l.rebuilding == NO_SLOT {
        return l.mark == 0;
    }
    l.rebuilding < l.k + l.m
        && has(l.out, l.rebuilding)
        && stripes(l.geometry()).is_ok_and(|t| l.mark <= t)
}

// Whether the numbers are those of a label.
#[tactic(auto, using(crate::proofs::Fits::range_of), unfolding(crate::specs::Fields::fits_of))]
pub fn fits(l: Label) -> bool
    ensures { result ≡ fits_of l }
{
    l.k <= MOST_K
        && l.m <= MOST_M
        && in_range_with(l.geometry(), l.k)
        && l.slot < l.k + l.m
        && (1..=MOST_GENERATION).contains(&l.generation)
        && all_below(l.out, l.k + l.m)
        && rebuild_fits(l)
}
