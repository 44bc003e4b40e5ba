// What the greatest stamp decides: forward where every slot that its write changes has the whole record, as far as that slot
// is believed; otherwise kill.
ghost use Rattle.std.specs.Prelude.{◌≡◌};
ghost use Rattle.disk.specs.Mask.{mask_of};
ghost use Rattle.record.specs.Stamp.{stamp_at, same_stamp};
ghost use Rattle.redo.specs.Decide.{log_at, involved, complete_with, serves, whole_of, marked, settled};

use crate::Redo;
use crate::belief::{believes, looked_at};
use crate::tails::Logs;
use disk::geometry::shard;
use disk::mask::{has, with_slot};
use record::log::{area, complete};
use record::stamp::{same, stamp_at};
use record::tail::Tail;

// The write whose tail decides, and the logs that it is looked up in.
#[derive(Clone, Copy)]
pub(crate) struct Write<'a> {
    pub(crate) logs: Logs<'a>,
    pub(crate) tail: Tail,
}

impl Write<'_> {
    // Whether slot d's strip of the tail's stripe is believed, and its shard is one that the write changes.
    fn is_involved(&self, d: usize) -> bool
        ensures { result ≡ involved self.now.logs.g self.now.logs.l self.now.tail d }
    {
        let Logs { g, l, .. } = self.logs;
        let Tail { stripe, shards, .. } = self.tail;
        let t = stripe as usize;
        believes(g, l, d, t) && shard(g, t, d).is_ok_and(|r| has(shards, r))
    }

    // Whether slot d's tail has the write's stamp.
    fn tail_has(&self, d: usize) -> bool
        ensures { result ≡ same_stamp (stamp_at (log_at self.now.logs.g self.now.logs.image.now d self.now.logs.g.c)) self.now.tail.stamp }
    {
        same(stamp_at(self.logs.tail_sector(d)), self.tail.stamp)
    }

    // Whether slot d's record is complete, with the write's stamp.
    #[tactic(auto, unfolding(crate::specs::Decide::complete_with))]
    fn complete_with(&self, d: usize) -> bool
        ensures { result ≡ complete_with self.now.logs.g self.now.logs.image.now self.now.tail.stamp d }
    {
        let Logs { image, g, .. } = self.logs;
        complete(area(image, g, d), g.c) && self.tail_has(d)
    }

    // Whether slot d's record is complete, if the write changes it.
    #[tactic(auto, unfolding(crate::specs::Decide::serves))]
    fn does_serve(&self, d: usize) -> bool
        ensures { result ≡ serves self.now.logs.g self.now.logs.image.now self.now.logs.l self.now.tail.stamp self.now.tail d }
    {
        !self.is_involved(d) || self.complete_with(d)
    }

    // Whether that is so of every slot.
    fn whole(&self) -> bool
        ensures { result ≡ whole_of self.now.logs.g self.now.logs.image.now self.now.logs.l self.now.tail.stamp self.now.tail }
    {
        (0..self.logs.g.n).all(|d| self.does_serve(d))
    }

    // Whether slot d's tail is to be wiped.
    #[tactic(auto, unfolding(crate::specs::Decide::marked))]
    fn is_marked(&self, d: usize) -> bool
        ensures { result ≡ marked self.now.logs.g self.now.logs.image.now self.now.logs.l self.now.tail.stamp d }
    {
        looked_at(self.logs.g, self.logs.l, d) && self.tail_has(d)
    }

    // The slots that go forward.
    fn forward_slots(&self) -> u64
        ensures { result ≡ mask_of (involved self.now.logs.g self.now.logs.l self.now.tail) self.now.logs.g.n }
    {
        (0..self.logs.g.n)
            .filter(|&d| self.is_involved(d))
            .fold(0, with_slot)
    }

    // The slots whose tails are wiped.
    fn kill_slots(&self) -> u64
        ensures { result ≡ mask_of (marked self.now.logs.g self.now.logs.image.now self.now.logs.l self.now.tail.stamp) self.now.logs.g.n }
    {
        (0..self.logs.g.n)
            .filter(|&d| self.is_marked(d))
            .fold(0, with_slot)
    }

    // What the tail decides.
    #[tactic(auto, unfolding(crate::specs::Decide::settled))]
    pub(crate) fn settle(&self) -> Redo
        ensures { result ≡ settled self.now.logs.g self.now.logs.image.now self.now.logs.l self.now.tail.stamp self.now.tail }
    {
        if self.whole() {
            return Redo::Forward {
                stripe: self.tail.stripe as usize,
                slots: self.forward_slots(),
            };
        }
        Redo::Kill {
            slots: self.kill_slots(),
        }
    }
}
