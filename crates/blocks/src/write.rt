// Write: the stripe with the block's new bytes is made in the work area, and the steps then log and store what of it changes.
ghost use Rattle.std.specs.Prelude.{◌≡◌, true, ◌<◌, length};
ghost use Rattle.label.specs.Fields.{fits_of};
ghost use Rattle.blocks.specs.Read.{Shows};
ghost use Rattle.requests.specs.Begun.{outcome_of, state_of};
ghost use Rattle.blocks.specs.Write.{most_count, stamp_left, write_answer, write_marks, stamped_with, changing, PreparedIn, AfterWrite};

use crate::answers::block_answer;
use crate::slots::{changed_shards, changed_slots, slots_there};
use disk::limits::SECTOR;
use disk::refusal::Refusal;
use label::fields::Label;
use requests::ready::{is_idle, ready};
use stages::state::{Cursor, Kind, Marks, State};
use strips::seen::Source;

// The greatest count of a stamp.
pub const MOST_COUNT: u64 = u64::MAX;

// Whether there is a stamp left for one more write.
pub(crate) fn stamp_left(count: u64) -> bool
    ensures { result ≡ stamp_left count }
{
    count < MOST_COUNT
}

// The first refusal that applies to a write.
#[tactic(auto, using(requests::specs::Accepted::ready_done))]
fn write_answer(
    l: Label,
    kind: Kind,
    absent: u64,
    count: u64,
    image: &[u8],
    block: usize,
    bytes: usize,
    room: usize,
) -> Result<(), Refusal>
    ensures { result ≡ write_answer l kind absent count image.now block bytes room }
{
    ready(l, kind, absent, image)?;
    block_answer(
        l,
        absent,
        is_idle(kind),
        stamp_left(count),
        block,
        bytes,
        room,
    )
}

// What a write goes by: the shards that it changes, their slots that are there, and the stripe.
pub(crate) fn write_marks(parts: u64, redo: u64, stripe: usize) -> Marks
    ensures { result ≡ write_marks parts redo stripe }
{
    Marks {
        parts,
        redo,
        stripe,
        ..Marks::NONE
    }
}

// A write at its beginning, with the next stamp.
pub(crate) fn stamped(s: State, marks: Marks) -> State
    requires { s.count < most_count }
    ensures { result ≡ stamped_with s marks }
{
    State {
        next: s.now,
        count: s.count + 1,
        marks,
        kind: Kind::Writing,
        cursor: Cursor::START,
        ..s
    }
}

// A write of these shards of stripe t at its beginning.
fn begin_change(s: State, t: usize, parts: u64) -> State
    requires { (fits_of s.now ≡ true) × (s.count < most_count) }
    ensures { result ≡ changing s t parts }
{
    let l = s.now;
    let g = l.geometry();
    let redo = changed_slots(g.n, t, slots_there(g, l, s.absent, t), parts);
    stamped(s, write_marks(parts, redo, t))
}

// Makes the stripe in the first half of the work area; says whether all its shards change.
fn prepare_in(
    image: &[u8],
    l: Label,
    absent: u64,
    block: usize,
    bytes: &[u8],
    work: &mut [u8],
) -> bool
    requires { Shows l absent image.now work.old block bytes.now }
    ensures { PreparedIn l absent image.now block bytes.now work.old result work.new }
{
    let g = l.geometry();
    let t = block / l.k;
    let there = slots_there(g, l, absent, t);
    let half = g.n * (g.c * SECTOR);
    let from = Source {
        image,
        g,
        there,
        over: 0,
        kept: &[],
    };
    from.prepare(l.k, t, block % l.k, bytes, &mut work[..half])
        .unwrap()
}

// Begins to write a block. Refused, in this order: no shelf is started NOT_NOW; another image BAD_IMAGE; a present disk whose label is not
// the state's NO_LABEL; more than m slots missing TOO_FEW; no such block BAD_BLOCK; a request under way BUSY; no stamp left NOT_NOW; data that
// is no block, or another work area, BAD_BUFFER. A refusal changes nothing.
pub fn write(
    s: State,
    block: usize,
    bytes: &[u8],
    image: &[u8],
    work: &mut [u8],
) -> Result<State, Refusal>
    ensures { (outcome_of result ≡ write_answer s.now s.kind s.absent s.count image.now block (length bytes.now) (length work.old)) × AfterWrite (outcome_of result) s block bytes.now image.now work.old (state_of s result) work.new }
{
    let l = s.now;
    write_answer(
        l,
        s.kind,
        s.absent,
        s.count,
        image,
        block,
        bytes.len(),
        work.len(),
    )?;
    let all = prepare_in(image, l, s.absent, block, bytes, work);
    let parts = changed_shards(l.k + l.m, l.k, block % l.k, all);
    Ok(begin_change(s, block / l.k, parts))
}
