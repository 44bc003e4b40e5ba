// Begin: the disk of a slot that is out or absent is readied, and the label then says that it is being rebuilt.
ghost use Rattle.std.specs.Prelude.{◌≡◌, true, false, cond, ◌+◌, ◌<◌};
ghost use Rattle.disk.specs.Limits.{mask_bits};
ghost use Rattle.disk.specs.Mask.{with_slot};
ghost use Rattle.label.specs.Fields.{fits_of, geometry_of};
ghost use Rattle.rebuilds.specs.Judge.{last_one};
ghost use Rattle.rebuilds.specs.Begin.{lacks, other_rebuilt, cannot_begin, asked_begin, begin_answer, begin_marks, began, begin_of};

use crate::judge::{is_last, is_sized, judge, too_few};
use crate::next::next_label;
use crate::readied::Disk;
use disk::geometry::Geometry;
use disk::mask::{has, with_slot, without_slot};
use disk::refusal::Refusal;
use label::fields::{Label, NO_SLOT};
use requests::begun::present_slots;
use requests::ready::{is_idle, ready};
use stages::state::{Cursor, Kind, Marks, State};

// Whether slot d is out or absent.
#[tactic(auto, unfolding(crate::specs::Begin::lacks))]
fn is_lacking(l: Label, absent: u64, d: usize) -> bool
    ensures { result ≡ lacks l absent d }
{
    has(l.out, d) || has(absent, d)
}

// Whether another slot than d is being rebuilt.
#[tactic(auto, unfolding(crate::specs::Begin::other_rebuilt))]
fn is_other_rebuilt(l: Label, d: usize) -> bool
    ensures { result ≡ other_rebuilt l d }
{
    l.rebuilding != NO_SLOT && l.rebuilding != d
}

// Whether this is not the time: slot d is neither out nor absent, another is being rebuilt, or no generation is left.
#[tactic(auto, unfolding(crate::specs::Begin::cannot_begin))]
fn cannot_begin(l: Label, absent: u64, d: usize) -> bool
    ensures { result ≡ cannot_begin l absent d }
{
    !is_lacking(l, absent, d) || is_other_rebuilt(l, d) || is_last(l)
}

// The first refusal that applies, on a shelf that is started. idle: no request is under way.
#[tactic(auto, using(requests::proofs::Answers::few_slots), unfolding(crate::specs::Begin::asked_begin))]
fn asked_begin(l: Label, idle: bool, absent: u64, d: usize, room: usize) -> Result<(), Refusal>
    requires { fits_of l ≡ true }
    ensures { result ≡ asked_begin l idle absent d room }
{
    judge(
        too_few(l, absent),
        l.k + l.m <= d,
        idle,
        cannot_begin(l, absent, d),
        is_sized(l, room),
    )
}

// The first refusal that applies.
#[tactic(auto, using(requests::specs::Accepted::ready_done))]
fn begin_answer(
    l: Label,
    kind: Kind,
    absent: u64,
    image: &[u8],
    d: usize,
    room: usize,
) -> Result<(), Refusal>
    ensures { result ≡ begin_answer l kind absent image.now d room }
{
    ready(l, kind, absent, image)?;
    asked_begin(l, is_idle(kind), absent, d, room)
}

// The mask of slot d alone, or of none.
pub(crate) fn only(d: usize, yes: bool) -> u64
    requires { d < mask_bits }
    ensures { result ≡ cond yes (with_slot 0 d) 0 }
{
    if yes { with_slot(0, d) } else { 0 }
}

// What begin goes by, from what is read of the slot's disk now. absent: without the slot.
fn begin_marks(image: &[u8], g: Geometry, l: Label, absent: u64, d: usize) -> Marks
    requires { d < mask_bits }
    ensures { result ≡ begin_marks g image.now l absent d }
{
    let disk = Disk { image, g, l, d };
    let first = disk.odd_first();
    Marks {
        present: present_slots(absent, g.n),
        parts: only(d, disk.is_alien(first)),
        late: only(d, disk.is_alien(!first)),
        prep: only(d, !disk.is_prepared()),
        zeroed: only(d, disk.gets_zeros()),
        redo: only(d, true),
        stripe: 0,
        forward: first,
    }
}

// Begin at its beginning. From here on the slot counts as present.
#[tactic(auto, using(requests::proofs::Answers::few_slots))]
fn begin_state(s: State, d: usize, image: &[u8]) -> State
    requires { (fits_of s.now ≡ true) × (d < s.now.k + s.now.m) × (last_one s.now ≡ false) }
    ensures { result ≡ began s d image.now }
{
    let l = s.now;
    let absent = without_slot(s.absent, d);
    State {
        next: next_label(l, with_slot(l.out, d), d, 0),
        absent,
        marks: begin_marks(image, l.geometry(), l, absent, d),
        kind: Kind::Beginning,
        cursor: Cursor::START,
        ..s
    }
}

// Begins the rebuild of a slot, or begins it again. Refused, in this order: no shelf is started NOT_NOW; another image BAD_IMAGE; a
// present disk whose label is not the state's NO_LABEL; more than m slots out or absent TOO_FEW; no such slot BAD_BLOCK; a request
// under way BUSY; the slot is neither out nor absent, or another is being rebuilt, or no generation is left, NOT_NOW; another work
// area BAD_BUFFER.
pub fn begin(s: State, slot: usize, image: &[u8], room: usize) -> Result<State, Refusal>
    ensures { result ≡ begin_of s slot image.now room }
{
    begin_answer(s.now, s.kind, s.absent, image, slot, room)?;
    Ok(begin_state(s, slot, image))
}
