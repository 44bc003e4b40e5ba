// The tails of the slots, and which of them decides.
ghost use Rattle.std.specs.Prelude.{◌≡◌, true};
ghost use Rattle.disk.specs.Geometry.{in_range};
ghost use Rattle.redo.specs.Decide.{log_at, tail_found, key_of, lead_of};

use crate::belief::looked_at;
use disk::geometry::{Geometry, stripes};
use disk::limits::FIRST_LOG;
use disk::sector::read;
use label::fields::Label;
use record::stamp::{Stamp, later};
use record::tail::{Tail, decode};

// The logs of an image whose geometry is in range, under the label that start-up settles.
#[derive(Clone, Copy)]
pub(crate) struct Logs<'a> {
    pub(crate) image: &'a [u8],
    pub(crate) g: Geometry,
    pub(crate) l: Label,
    ghost in_range: { in_range g ≡ true },
}

impl Logs<'_> {
    // The tail of slot d's record, the last of its c + 1 sectors.
    #[tactic(auto, unfolding(crate::specs::Decide::log_at))]
    pub(crate) fn tail_sector(&self, d: usize) -> &[u8]
        ensures { result.now ≡ log_at self.now.g self.now.image.now d self.now.g.c }
    {
        read(self.image, self.g, d, FIRST_LOG + self.g.c)
    }

    // What slot d's tail tells, where it is looked at.
    #[tactic(auto, unfolding(crate::specs::Decide::tail_found))]
    pub(crate) fn find_tail(&self, d: usize) -> Option<Tail>
        ensures { result ≡ tail_found self.now.g self.now.image.now self.now.l d }
    {
        if !looked_at(self.g, self.l, d) {
            return None;
        }
        let t = stripes(self.g).unwrap_or(0);
        decode(self.tail_sector(d), t as u64, self.g.n, self.l.generation)
    }

    // The stamp of slot d's tail; that of zeros where there is none.
    fn key(&self, d: usize) -> Stamp
        ensures { result ≡ key_of self.now.g self.now.image.now self.now.l d }
    {
        let none = Stamp { epoch: 0, count: 0 };
        self.find_tail(d).map_or(none, |x| x.stamp)
    }

    // The slot whose tail has the greatest stamp, the lowest of them.
    pub(crate) fn leader(&self) -> usize
        ensures { result ≡ lead_of self.now.g self.now.image.now self.now.l }
    {
        let mut first = 0;
        for d in 0..self.g.n {
            if later(self.key(d), self.key(first)) {
                first = d;
            }
        }
        first
    }
}
