// Read: a block as it is shown, whatever is missing.
ghost use Rattle.std.specs.Prelude.{◌≡◌, ◌*◌, length};
ghost use Rattle.disk.specs.Limits.{sector_bytes};
ghost use Rattle.strips.specs.Seen.{shard_bytes};
ghost use Rattle.blocks.specs.Read.{is_writing, laid_by, laid_over, block_shown, shown_of, Shows, Showing, read_answer, after_read};

use crate::answers::{block_answer, is_served, look_answer};
use crate::slots::slots_there;
use disk::limits::{MOST_N, SECTOR};
use disk::mask::has;
use disk::refusal::Refusal;
use label::fields::Label;
use stages::state::{Kind, State};
use strips::seen::Source;

// The stage of a write at which its strips are being written: its log is flushed.
pub const STORED: usize = 2;

// Whether a write is under way.
fn is_writing(kind: Kind) -> bool
    ensures { result ≡ is_writing kind }
{
    kind == Kind::Writing
}

// The slots whose shards of stripe t are taken from the work area: those of a write to it whose strips are being written.
#[tactic(auto, unfolding(crate::specs::Read::laid_by))]
fn laid(kind: Kind, stage: usize, redo: u64, stripe: usize, t: usize) -> u64
    ensures { result ≡ laid_by kind stage redo stripe t }
{
    if is_writing(kind) && STORED <= stage && stripe == t {
        redo
    } else {
        0
    }
}

// Those of a state.
pub(crate) fn laid_over(s: State, t: usize) -> u64
    ensures { result ≡ laid_over s t }
{
    laid(s.kind, s.cursor.stage, s.marks.redo, s.marks.stripe, t)
}

// Shard r of stripe t, with k data shards to the stripe, of which every sector can be shown.
#[derive(Clone, Copy)]
struct Shard<'a> {
    from: Source<'a>,
    k: usize,
    t: usize,
    r: usize,
    ghost can: { Showing from.g k from.image.now from.there from.kept.now t r },
}

impl Shard<'_> {
    // The shard as it is shown, sector by sector, with room for a sector of every shard.
    fn show_sectors(&self, room: &mut [u8], bytes: &mut [u8])
        requires { (length room.old ≡ self.now.from.g.n * sector_bytes) × (length bytes.old ≡ shard_bytes self.now.from.g) }
        ensures { let s = self.now in bytes.new ≡ block_shown s.from.g s.k s.from.image.now s.from.there s.from.over s.from.kept.now s.t s.r }
    {
        for j in 0..self.from.g.c {
            let at = j * SECTOR;
            let _ = self.from.shown(
                self.k,
                self.t,
                self.r,
                j,
                1,
                room,
                &mut bytes[at..at + SECTOR],
            );
        }
    }

    // The shard, whose slot is not there, as it is shown: rebuilt.
    fn show_lost(&self, bytes: &mut [u8])
        requires { length bytes.old ≡ shard_bytes self.now.from.g }
        ensures { let s = self.now in bytes.new ≡ block_shown s.from.g s.k s.from.image.now s.from.there s.from.over s.from.kept.now s.t s.r }
    {
        let mut room = [0u8; MOST_N * SECTOR];
        let wide = self.from.g.n * SECTOR;
        self.show_sectors(&mut room[..wide], bytes);
    }

    // The shard as it is shown: where its slot is there, its bytes as they lie.
    fn show_block(&self, bytes: &mut [u8])
        requires { length bytes.old ≡ shard_bytes self.now.from.g }
        ensures { let s = self.now in bytes.new ≡ block_shown s.from.g s.k s.from.image.now s.from.there s.from.over s.from.kept.now s.t s.r }
    {
        if has(self.from.there, (self.r + self.t) % self.from.g.n) {
            let _ = self.from.fetch_shard(self.t, self.r, bytes);
            return;
        }
        self.show_lost(bytes);
    }
}

// The first refusal that applies to a read.
fn read_answer(
    l: Label,
    kind: Kind,
    absent: u64,
    block: usize,
    len: usize,
    bytes: usize,
    room: usize,
) -> Result<(), Refusal>
    ensures { result ≡ read_answer l kind absent block len bytes room }
{
    look_answer(l, kind, len)?;
    block_answer(l, absent, true, is_served(kind), block, bytes, room)
}

// A block as it is shown on a shelf with this label.
fn show_of(
    image: &[u8],
    l: Label,
    absent: u64,
    over: u64,
    work: &[u8],
    block: usize,
    bytes: &mut [u8],
)
    requires { Shows l absent image.now work.now block bytes.old }
    ensures { bytes.new ≡ shown_of l absent over image.now work.now block }
{
    let g = l.geometry();
    let t = block / l.k;
    let there = slots_there(g, l, absent, t);
    let half = g.n * (g.c * SECTOR);
    let from = Source {
        image,
        g,
        there,
        over,
        kept: &work[..half],
    };
    let r = block % l.k;
    Shard { from, k: l.k, t, r }.show_block(bytes);
}

// Reads a block. Refused, in this order: no shelf is started NOT_NOW; another image BAD_IMAGE; more than m slots missing TOO_FEW; no such
// block BAD_BLOCK; create or start-up has not answered NOT_NOW; data that is no block, or another work area, BAD_BUFFER. While a write is
// under way the block is as it was before it until the first put of its strips, which follows the flush of its log, and as it will be from then on.
pub fn read(
    s: State,
    block: usize,
    bytes: &mut [u8],
    image: &[u8],
    work: &[u8],
) -> Result<(), Refusal>
    ensures { (result ≡ read_answer s.now s.kind s.absent block (length image.now) (length bytes.old) (length work.now)) × (bytes.new ≡ after_read result s block image.now work.now bytes.old) }
{
    let l = s.now;
    read_answer(
        l,
        s.kind,
        s.absent,
        block,
        image.len(),
        bytes.len(),
        work.len(),
    )?;
    let over = laid_over(s, block / l.k);
    show_of(image, l, s.absent, over, work, block, bytes);
    Ok(())
}
