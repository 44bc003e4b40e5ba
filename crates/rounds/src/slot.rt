// What start-up asks of one slot, with the shelf's label in hand.
ghost use Rattle.std.specs.Prelude.{◌≡◌, ◌+◌, ◌≤◌, eqb};
ghost use Rattle.disk.specs.Limits.{mask_bits};
ghost use Rattle.rounds.specs.Slot.{behind, disowned, stale, gone, goes_out, adopts, age_under, copy_age, prepared, wiped, gets_zeros, gets_label};

use disk::geometry::Geometry;
use disk::mask::has;
use disk::sector::read;
use label::codec::decode;
use label::fields::Label;
use label::newest::{present_label, same_shelf};

// The slots of a shelf, some of them absent, and the shelf's label.
#[derive(Clone, Copy)]
pub(crate) struct Slots<'a> {
    pub(crate) image: &'a [u8],
    pub(crate) g: Geometry,
    pub(crate) absent: u64,
    pub(crate) lead: Label,
    ghost few: { g.n ≤ mask_bits },
}

// Whether a generation is more than one behind the newest.
#[tactic(auto, unfolding(crate::specs::Slot::behind))]
fn is_behind(own: u64, newest: u64) -> bool
    ensures { result ≡ behind own newest }
{
    own < newest.saturating_sub(1)
}

// Whether slot d's own label calls it plainly out, and the shelf's does not.
#[tactic(auto, unfolding(crate::specs::Slot::disowned, crate::specs::Slot::plainly_out, label::specs::Fields::calls_out))]
fn is_disowned(own: Option<Label>, lead: Label, d: usize) -> bool
    ensures { result ≡ disowned own lead d }
{
    own.is_some_and(|l| l.calls_out(d)) && !lead.calls_out(d)
}

// The generation of a copy, 0 where it is none of this shelf's.
fn age_under(lead: Label, x: Option<Label>) -> u64
    ensures { result ≡ age_under lead x }
{
    x.filter(|l| same_shelf(lead, *l))
        .map_or(0, |l| l.generation)
}

// The generation of the copy in sector s of slot d, 0 where it is none of this shelf's.
#[tactic(auto, unfolding(crate::specs::Slot::copy_age, label::specs::Newest::copy_of))]
pub fn copy_age(image: &[u8], g: Geometry, lead: Label, d: usize, s: usize) -> u64
    ensures { result ≡ copy_age g image.now lead d s }
{
    age_under(lead, decode(read(image, g, d, s), d, s as u64))
}

// Whether age is the generation after m.
fn follows(age: u64, m: u64) -> bool
    ensures { result ≡ eqb age (m + 1) }
{
    age.checked_sub(1) == Some(m)
}

impl Slots<'_> {
    // Whether the disk in slot d missed something, whatever it looks like.
    #[tactic(auto, unfolding(crate::specs::Slot::stale))]
    fn is_stale(&self, d: usize) -> bool
        ensures { result ≡ stale self.now.g self.now.image.now self.now.absent self.now.lead d }
    {
        let own = present_label(self.image, self.g, self.absent, d);
        let age = own.map_or(0, |l| l.generation);
        is_behind(age, self.lead.generation) || is_disowned(own, self.lead, d)
    }

    // Whether slot d is absent or stale.
    #[tactic(auto, unfolding(crate::specs::Slot::gone))]
    pub(crate) fn is_gone(&self, d: usize) -> bool
        ensures { result ≡ gone self.now.g self.now.image.now self.now.absent self.now.lead d }
    {
        d < self.g.n && (has(self.absent, d) || self.is_stale(d))
    }

    // Whether slot d is in Out'.
    #[tactic(auto, unfolding(crate::specs::Slot::goes_out))]
    pub(crate) fn goes_out(&self, d: usize) -> bool
        ensures { result ≡ goes_out self.now.g self.now.image.now self.now.absent self.now.lead d }
    {
        has(self.lead.out, d) || self.is_gone(d)
    }

    // Whether slot d is present and stale.
    #[tactic(auto, unfolding(crate::specs::Slot::adopts))]
    pub(crate) fn adopts(&self, d: usize) -> bool
        ensures { result ≡ adopts self.now.g self.now.image.now self.now.absent self.now.lead d }
    {
        !has(self.absent, d) && self.is_stale(d)
    }

    fn copy_age(&self, d: usize, s: usize) -> u64
        ensures { result ≡ copy_age self.now.g self.now.image.now self.now.lead d s }
    {
        copy_age(self.image, self.g, self.lead, d, s)
    }

    // Whether the sector of generation M + 1 of slot d holds that generation.
    #[tactic(auto, unfolding(crate::specs::Slot::prepared))]
    fn is_prepared(&self, d: usize) -> bool
        ensures { result ≡ prepared self.now.g self.now.image.now self.now.lead d }
    {
        let m = self.lead.generation;
        let s = (1 - m % 2) as usize;
        follows(self.copy_age(d, s), m)
    }

    // Whether that sector may be wiped: the other one holds a copy, or this one none.
    #[tactic(auto, unfolding(crate::specs::Slot::wiped))]
    fn may_wipe(&self, d: usize) -> bool
        ensures { result ≡ wiped self.now.g self.now.image.now self.now.lead d }
    {
        let t = (self.lead.generation % 2) as usize;
        0 < self.copy_age(d, t) || self.copy_age(d, 1 - t) == 0
    }

    // Whether slot d adopts, and is to be given zeros first.
    #[tactic(auto, unfolding(crate::specs::Slot::gets_zeros))]
    pub(crate) fn gets_zeros(&self, d: usize) -> bool
        ensures { result ≡ gets_zeros self.now.g self.now.image.now self.now.absent self.now.lead d }
    {
        self.adopts(d) && !self.is_prepared(d) && self.may_wipe(d)
    }

    // Whether slot d adopts, and is to be given the label of generation M + 1 first.
    #[tactic(auto, unfolding(crate::specs::Slot::gets_label))]
    pub(crate) fn gets_label(&self, d: usize) -> bool
        ensures { result ≡ gets_label self.now.g self.now.image.now self.now.absent self.now.lead d }
    {
        self.adopts(d) && !self.is_prepared(d) && !self.may_wipe(d)
    }
}
