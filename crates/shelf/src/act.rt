// One action of a stage, on one slot: at most one sector of the image changes, wholly, and only of a present slot.
ghost use Rattle.std.specs.Prelude.{◌≡◌, ◌≤◌, ◌<◌};
ghost use Rattle.disk.specs.Limits.{most_n, most_c, most_sectors};
ghost use Rattle.disk.specs.Mask.{in_mask};
ghost use Rattle.stages.specs.Told.{told};
ghost use Rattle.shelf.specs.Act.{onward, put_move, flush_move, give_move, wipe_move, restore_move, tail_of, log_move, store_move, clear_move, erase_move, fill_move, act_move};

use crate::fill::{in_strips, rebuild};
use crate::kept::{kept, part_of, record_sector};
use disk::geometry::{Geometry, strip};
use disk::limits::{FIRST_LOG, FIRST_STRIP, SECTOR};
use disk::mask::has;
use disk::refusal::Refusal;
use disk::sector::put;
use label::codec::encode;
use label::fields::Label;
use record::log::{area, restore};
use record::stamp::Stamp;
use record::tail::Tail;
use stages::stage::Stage;
use stages::state::{Did, State, Stepped, at};

// Whose turn it is: the slot of a shelf that the next action is on, and the state of the request.
#[derive(Clone, Copy)]
pub(crate) struct Turn {
    pub(crate) state: State,
    pub(crate) shelf: Geometry,
    pub(crate) slot: usize,
    ghost few: { slot < most_n },
    ghost low: { state.cursor.sector < most_sectors },
    ghost short: { shelf.c ≤ most_c },
}

// The tail of the write's record: its stamp, its stripe, and the shards that it changes.
fn tail_of(s: State, stripe: usize, shards: u64) -> Tail
    ensures { result ≡ tail_of s stripe shards }
{
    Tail {
        stamp: Stamp {
            epoch: s.epoch,
            count: s.count,
        },
        stripe: stripe as u64,
        shards,
    }
}

impl Turn {
    // The state after the sector, one of `count`, was put.
    #[tactic(auto, unfolding(crate::specs::Act::onward))]
    fn onward(self, count: usize) -> State
        ensures { result ≡ onward self.state self.slot count }
    {
        let s = self.state;
        if s.cursor.sector + 1 < count {
            return at(s, s.cursor.stage, self.slot, s.cursor.sector + 1);
        }
        at(s, s.cursor.stage, self.slot + 1, 0)
    }

    // Whether the slot is absent.
    fn is_absent(self) -> bool
        ensures { result ≡ in_mask self.state.absent self.slot }
    {
        has(self.state.absent, self.slot)
    }

    // Puts these bytes at sector `to` of the slot, one of `count`.
    #[tactic(auto, unfolding(crate::specs::Act::put_move))]
    fn put_bytes(
        self,
        to: usize,
        count: usize,
        bytes: &[u8],
        image: &mut [u8],
    ) -> Result<Stepped, Refusal>
        ensures { (told self.state result ≡ (put_move self.state self.shelf self.slot to count bytes.now image.old).stepped)
            × (image.new ≡ (put_move self.state self.shelf self.slot to count bytes.now image.old).image) }
    {
        if self.is_absent() {
            return Err(Refusal::NotNow);
        }
        put(image, self.shelf, self.slot, to, bytes)?;
        Ok(Stepped {
            state: self.onward(count),
            did: Did::Put {
                slot: self.slot,
                sector: to,
            },
        })
    }

    // Says that the slot is to be flushed.
    #[tactic(auto, unfolding(crate::specs::Act::flush_move))]
    fn flush(self) -> Result<Stepped, Refusal>
        ensures { told self.state result ≡ flush_move self.state self.slot }
    {
        if self.is_absent() {
            return Err(Refusal::NotNow);
        }
        Ok(Stepped {
            state: self.onward(1),
            did: Did::Flush { slot: self.slot },
        })
    }

    // Gives the slot the label, or zeros over the sector that is the label's.
    #[tactic(auto, unfolding(crate::specs::Act::give_move))]
    fn give(self, zeroed: u64, l: Label, image: &mut [u8]) -> Result<Stepped, Refusal>
        ensures { (told self.state result ≡ (give_move self.state self.shelf self.slot zeroed l image.old).stepped)
            × (image.new ≡ (give_move self.state self.shelf self.slot zeroed l image.old).image) }
    {
        let slot = self.slot;
        let to = (l.generation % 2) as usize;
        let mut b = [0u8; SECTOR];
        if has(zeroed, slot) {
            return self.put_bytes(to, 1, &b, image);
        }
        encode(Label { slot, ..l }, &mut b).map_err(|_| Refusal::NotNow)?;
        self.put_bytes(to, 1, &b, image)
    }

    // Zeros over the tail of the slot's record.
    #[tactic(auto, unfolding(crate::specs::Act::wipe_move))]
    fn wipe(self, image: &mut [u8]) -> Result<Stepped, Refusal>
        ensures { (told self.state result ≡ (wipe_move self.state self.shelf self.slot image.old).stepped)
            × (image.new ≡ (wipe_move self.state self.shelf self.slot image.old).image) }
    {
        let b = [0u8; SECTOR];
        self.put_bytes(FIRST_LOG + self.shelf.c, 1, &b, image)
    }

    // Gives the slot the next sector of its strip of that stripe from its record.
    #[tactic(auto, unfolding(crate::specs::Act::restore_move))]
    fn redo(self, stripe: usize, image: &mut [u8]) -> Result<Stepped, Refusal>
        ensures { (told self.state result ≡ (restore_move self.state self.shelf self.slot stripe image.old).stepped)
            × (image.new ≡ (restore_move self.state self.shelf self.slot stripe image.old).image) }
    {
        let g = self.shelf;
        let j = self.state.cursor.sector;
        let mut b = [0u8; SECTOR];
        restore(area(image, g, self.slot), g.c, j, &mut b).map_err(|_| Refusal::NotNow)?;
        let first = strip(g, stripe).map_err(|_| Refusal::NotNow)?;
        self.put_bytes(first + j, g.c, &b, image)
    }

    // Gives the slot the next sector of its record of the shard that is kept for it.
    #[tactic(auto, unfolding(crate::specs::Act::log_move))]
    fn log(
        self,
        stripe: usize,
        shards: u64,
        work: &[u8],
        image: &mut [u8],
    ) -> Result<Stepped, Refusal>
        ensures { (told self.state result ≡ (log_move self.state self.shelf self.slot stripe shards work.now image.old).stepped)
            × (image.new ≡ (log_move self.state self.shelf self.slot stripe shards work.now image.old).image) }
    {
        let g = self.shelf;
        let j = self.state.cursor.sector;
        let tail = tail_of(self.state, stripe, shards);
        let shard = kept(work, g, stripe, self.slot);
        let mut b = [0u8; SECTOR];
        record_sector(tail, shard, g.c, j, &mut b).map_err(|_| Refusal::NotNow)?;
        self.put_bytes(FIRST_LOG + j, g.c + 1, &b, image)
    }

    // Gives the slot the next sector of its strip of that stripe: of the shard that is kept for it.
    #[tactic(auto, unfolding(crate::specs::Act::store_move))]
    fn store(self, stripe: usize, work: &[u8], image: &mut [u8]) -> Result<Stepped, Refusal>
        ensures { (told self.state result ≡ (store_move self.state self.shelf self.slot stripe work.now image.old).stepped)
            × (image.new ≡ (store_move self.state self.shelf self.slot stripe work.now image.old).image) }
    {
        let g = self.shelf;
        let j = self.state.cursor.sector;
        let first = strip(g, stripe).map_err(|_| Refusal::NotNow)?;
        let bytes = part_of(kept(work, g, stripe, self.slot), j);
        self.put_bytes(first + j, g.c, bytes, image)
    }

    // Zeros over the next sector of the slot's record.
    #[tactic(auto, unfolding(crate::specs::Act::clear_move))]
    fn clear(self, image: &mut [u8]) -> Result<Stepped, Refusal>
        ensures { (told self.state result ≡ (clear_move self.state self.shelf self.slot image.old).stepped)
            × (image.new ≡ (clear_move self.state self.shelf self.slot image.old).image) }
    {
        let c = self.shelf.c;
        let j = self.state.cursor.sector;
        if c < j {
            return Err(Refusal::NotNow);
        }
        let b = [0u8; SECTOR];
        self.put_bytes(FIRST_LOG + j, c + 1, &b, image)
    }

    // Zeros over one sector of the slot's label.
    fn erase(self, odd: bool, image: &mut [u8]) -> Result<Stepped, Refusal>
        ensures { (told self.state result ≡ (erase_move self.state self.shelf self.slot odd image.old).stepped)
            × (image.new ≡ (erase_move self.state self.shelf self.slot odd image.old).image) }
    {
        let b = [0u8; SECTOR];
        self.put_bytes(usize::from(odd), 1, &b, image)
    }

    // Gives the slot the next sector of its strips from strip `first` on, computed from what is believed of the others.
    #[tactic(auto, unfolding(crate::specs::Act::fill_move))]
    fn fill(
        self,
        first: usize,
        count: usize,
        work: &[u8],
        image: &mut [u8],
    ) -> Result<Stepped, Refusal>
        ensures { (told self.state result ≡ (fill_move self.state self.shelf self.slot first count work.now image.old).stepped)
            × (image.new ≡ (fill_move self.state self.shelf self.slot first count work.now image.old).image) }
    {
        let s = self.state;
        let g = self.shelf;
        let x = s.cursor.sector;
        if !in_strips(first, count, g.c, x) {
            return Err(Refusal::NotNow);
        }
        let mut b = [0u8; SECTOR];
        let t = first + x / g.c;
        rebuild(
            s.now,
            s.absent,
            g,
            self.slot,
            t,
            x % g.c,
            work,
            image,
            &mut b,
        )
        .map_err(|_| Refusal::NotNow)?;
        let to = FIRST_STRIP + first * g.c + x;
        self.put_bytes(to, count * g.c, &b, image)
    }

    // The next action of the stage.
    pub(crate) fn act(self, stage: Stage, work: &[u8], image: &mut [u8]) -> Result<Stepped, Refusal>
        ensures { (told self.state result ≡ (act_move self.state self.shelf stage self.slot work.now image.old).stepped)
            × (image.new ≡ (act_move self.state self.shelf stage self.slot work.now image.old).image) }
    {
        match stage {
            Stage::Flush { .. } => self.flush(),
            Stage::Give { zeroed, label, .. } => self.give(zeroed, label, image),
            Stage::Wipe { .. } => self.wipe(image),
            Stage::Restore { stripe, .. } => self.redo(stripe, image),
            Stage::Log { stripe, shards, .. } => self.log(stripe, shards, work, image),
            Stage::Store { stripe, .. } => self.store(stripe, work, image),
            Stage::Clear { .. } => self.clear(image),
            Stage::Erase { odd, .. } => self.erase(odd, image),
            Stage::Fill { first, count, .. } => self.fill(first, count, work, image),
            Stage::End => Err(Refusal::NotNow),
        }
    }
}
