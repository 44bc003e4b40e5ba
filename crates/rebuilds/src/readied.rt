// What begin finds on the disk of the slot, and so what it does there before the label is told to all: copies of another shelf or
// slot are zeroed, the one of the smaller generation first; then the disk is prepared for the next generation, unless it is.
ghost use Rattle.std.specs.Prelude.{◌≡◌};
ghost use Rattle.rounds.specs.Slot.{copy_age};
ghost use Rattle.rebuilds.specs.Readied.{foreign, odd_first, alien, prepared, wiped, gets_zeros};

use disk::geometry::Geometry;
use disk::sector::read;
use label::fields::Label;
use label::strange::strange;
use rounds::slot::copy_age;

// The disk in slot d, as the image has it, and the shelf's label.
#[derive(Clone, Copy)]
pub(crate) struct Disk<'a> {
    pub(crate) image: &'a [u8],
    pub(crate) g: Geometry,
    pub(crate) l: Label,
    pub(crate) d: usize,
}

impl Disk<'_> {
    // The generation of the copy of another shelf or slot in sector s, 0 where there is none.
    #[tactic(auto, unfolding(crate::specs::Readied::foreign))]
    fn foreign_age(&self, s: usize) -> u64
        ensures { result ≡ foreign self.now.g self.now.image.now self.now.l self.now.d s }
    {
        strange(
            read(self.image, self.g, self.d, s),
            self.l,
            self.d,
            s as u64,
        )
    }

    // The generation of the copy in sector s, 0 where it is none of this shelf's.
    fn copy_age(&self, s: usize) -> u64
        ensures { result ≡ copy_age self.now.g self.now.image.now self.now.l self.now.d s }
    {
        copy_age(self.image, self.g, self.l, self.d, s)
    }

    // Whether sector 1 is zeroed before sector 0: the copy there is not of a greater generation.
    #[tactic(auto, unfolding(crate::specs::Readied::odd_first))]
    pub(crate) fn odd_first(&self) -> bool
        ensures { result ≡ odd_first self.now.g self.now.image.now self.now.l self.now.d }
    {
        self.foreign_age(1) <= self.foreign_age(0)
    }

    // Whether sector 1 (odd), or sector 0, holds a copy of another shelf or slot.
    #[tactic(auto, unfolding(crate::specs::Readied::alien))]
    pub(crate) fn is_alien(&self, odd: bool) -> bool
        ensures { result ≡ alien self.now.g self.now.image.now self.now.l self.now.d odd }
    {
        0 < self.foreign_age(usize::from(odd))
    }

    // Whether the sector that is not the next generation's holds the present generation already. (This and the next are rounds' tests of a
    // slot one generation on, in three lines each: a function of the generation that both share would be no shorter.)
    #[tactic(auto, unfolding(crate::specs::Readied::prepared))]
    pub(crate) fn is_prepared(&self) -> bool
        ensures { result ≡ prepared self.now.g self.now.image.now self.now.l self.now.d }
    {
        let s = (self.l.generation % 2) as usize;
        self.copy_age(s) == self.l.generation
    }

    // Whether that sector may be wiped: the next generation's own holds a copy, or this one none.
    #[tactic(auto, using(crate::specs::Readied::other_side), unfolding(crate::specs::Readied::wiped))]
    fn may_wipe(&self) -> bool
        ensures { result ≡ wiped self.now.g self.now.image.now self.now.l self.now.d }
    {
        let s = (self.l.generation % 2) as usize;
        0 < self.copy_age(1 - s) || self.copy_age(s) == 0
    }

    // Whether the disk is prepared with zeros.
    #[tactic(auto, unfolding(crate::specs::Readied::gets_zeros))]
    pub(crate) fn gets_zeros(&self) -> bool
        ensures { result ≡ gets_zeros self.now.g self.now.image.now self.now.l self.now.d }
    {
        !self.is_prepared() && self.may_wipe()
    }
}
