// On: some strips of the slot being rebuilt are computed from the others of their stripes and written, and the label then says so. The
// last strip heals the slot (where all are rebuilt already, a flush and the label do).
ghost use Rattle.std.specs.Prelude.{◌≡◌, true, false, length};
ghost use Rattle.disk.specs.Geometry.{stripes_of};
ghost use Rattle.disk.specs.Image.{fits_image};
ghost use Rattle.label.specs.Fields.{fits_of, geometry_of};
ghost use Rattle.rebuilds.specs.Judge.{last_one};
ghost use Rattle.rebuilds.specs.On.{cannot_go_on, asked_on, on_answer, at_least_one, last_batch, strips_on, on_label, some_contradict, on_marks, first_stage, went_on, on_of, GoesOn};

use crate::begin::only;
use crate::judge::{is_last, is_sized, judge, too_few};
use crate::next::next_label;
use crate::survivors::some_contradict;
use disk::geometry::{Geometry, stripes};
use disk::mask::{has, without_slot};
use disk::refusal::Refusal;
use label::fields::{Label, NO_SLOT};
use requests::begun::present_slots;
use requests::ready::{is_idle, ready};
use stages::state::{Cursor, Kind, Marks, State};

// Whether this is not the time: no slot is being rebuilt, or it is absent, or no generation is left.
#[tactic(auto, unfolding(crate::specs::On::cannot_go_on))]
fn cannot_go_on(l: Label, absent: u64) -> bool
    ensures { result ≡ cannot_go_on l absent }
{
    l.rebuilding == NO_SLOT || has(absent, l.rebuilding) || is_last(l)
}

// The first refusal that applies, on a shelf that is started. idle: no request is under way.
#[tactic(auto, unfolding(crate::specs::On::asked_on))]
fn asked_on(l: Label, idle: bool, absent: u64, room: usize) -> Result<(), Refusal>
    requires { fits_of l ≡ true }
    ensures { result ≡ asked_on l idle absent room }
{
    judge(
        too_few(l, absent),
        false,
        idle,
        cannot_go_on(l, absent),
        is_sized(l, room),
    )
}

// The first refusal that applies.
#[tactic(auto, using(requests::specs::Accepted::ready_done))]
fn on_answer(l: Label, kind: Kind, absent: u64, image: &[u8], room: usize) -> Result<(), Refusal>
    ensures { result ≡ on_answer l kind absent image.now room }
{
    ready(l, kind, absent, image)?;
    asked_on(l, is_idle(kind), absent, room)
}

// A batch of 0 means 1.
fn at_least_one(batch: usize) -> usize
    ensures { result ≡ at_least_one batch }
{
    batch.max(1)
}

// T.
fn stripes_of(l: Label) -> usize
    requires { fits_of l ≡ true }
    ensures { result ≡ stripes_of (geometry_of l) }
{
    stripes(l.geometry()).unwrap_or(0)
}

// Whether the batch reaches the end.
#[tactic(auto, using(crate::specs::On::mark_within, crate::specs::On::left_is), unfolding(crate::specs::On::last_batch))]
fn is_last_batch(l: Label, batch: usize) -> bool
    requires { fits_of l ≡ true }
    ensures { result ≡ last_batch l batch }
{
    stripes_of(l) - l.mark <= at_least_one(batch)
}

// How many strips are rebuilt.
#[tactic(auto, using(crate::specs::On::mark_within), unfolding(crate::specs::On::strips_on))]
fn strips_on(l: Label, batch: usize) -> usize
    requires { fits_of l ≡ true }
    ensures { result ≡ strips_on l batch }
{
    if is_last_batch(l, batch) {
        stripes_of(l) - l.mark
    } else {
        at_least_one(batch)
    }
}

// The label afterwards: the mark is behind these strips, or the slot is healthy.
#[tactic(auto, using(crate::specs::On::mark_fits, crate::specs::On::stripes_few), unfolding(crate::specs::On::on_label))]
fn on_label(l: Label, batch: usize) -> Label
    requires { (fits_of l ≡ true) × (last_one l ≡ false) }
    ensures { result ≡ on_label l batch }
{
    if is_last_batch(l, batch) {
        next_label(l, without_slot(l.out, l.rebuilding), NO_SLOT, 0)
    } else {
        next_label(l, l.out, l.rebuilding, l.mark + at_least_one(batch))
    }
}

// Whether survivors contradict each other: in a stripe of these strips more than k shards are there and believed, and with the lost
// ones filled in an equation does not hold. Nothing is refused for it: the strips are computed all the same.
fn are_contradicted(l: Label, absent: u64, batch: usize, image: &[u8]) -> bool
    requires { (fits_of l ≡ true) × (fits_image (geometry_of l) (length image.now) ≡ true) }
    ensures { result ≡ some_contradict l absent image.now batch }
{
    some_contradict(image, l.geometry(), l, absent, l.mark, strips_on(l, batch))
}

// What it goes by. odd: whether survivors contradict each other.
fn on_marks(l: Label, absent: u64, batch: usize, odd: bool) -> Marks
    requires { GoesOn l }
    ensures { result ≡ on_marks l absent batch odd }
{
    Marks {
        present: present_slots(absent, l.k + l.m),
        redo: only(l.rebuilding, true),
        stripe: strips_on(l, batch),
        forward: odd,
        ..Marks::NONE
    }
}

// The stage with which it begins: its strips; where it has none (the mark is T already), the flush behind them. A stage that fills
// nothing would refuse every step.
fn first_stage(count: usize) -> usize
    ensures { result ≡ first_stage count }
{
    let fill = 0;
    let flush = 1;
    if count == 0 { flush } else { fill }
}

// The rebuild of these strips at its beginning.
fn on_state(s: State, batch: usize, image: &[u8]) -> State
    requires { GoesOn s.now × (fits_image (geometry_of s.now) (length image.now) ≡ true) }
    ensures { result ≡ went_on s batch image.now }
{
    let l = s.now;
    let odd = are_contradicted(l, s.absent, batch, image);
    let marks = on_marks(l, s.absent, batch, odd);
    State {
        next: on_label(l, batch),
        marks,
        kind: Kind::Filling,
        cursor: Cursor {
            stage: first_stage(marks.stripe),
            ..Cursor::START
        },
        ..s
    }
}

// Begins to rebuild the next strips, at most `batch` of them and one at least; none where all are rebuilt already. Refused, in this order: no
// shelf is started NOT_NOW; another image BAD_IMAGE; a present disk whose label is not the state's NO_LABEL; more than m slots out or
// absent TOO_FEW; a request under way BUSY; no slot is being rebuilt, or it is absent, or no generation is left, NOT_NOW; another work
// area BAD_BUFFER.
// What is accepted says in its marks (forward) whether survivors contradict each other.
pub fn rebuild_on(s: State, batch: usize, image: &[u8], room: usize) -> Result<State, Refusal>
    ensures { result ≡ on_of s batch image.now room }
{
    on_answer(s.now, s.kind, s.absent, image, room)?;
    Ok(on_state(s, batch, image))
}
