// Take a slot out: one label change, which says that its strips are not to be believed.
ghost use Rattle.std.specs.Prelude.{◌≡◌, true, ◌+◌, ◌<◌};
ghost use Rattle.disk.specs.Limits.{mask_bits};
ghost use Rattle.label.specs.Fields.{most_generation, fits_of};
ghost use Rattle.requests.specs.TakeOut.{out_with, plainly_out, out_now, out_answer, take_answer, next_label, outed, took_out, take_out_of};

use crate::begun::{slots_but, work_bytes};
use crate::ready::{is_idle, ready};
use disk::mask::{count, has, with_slot};
use disk::refusal::Refusal;
use label::fields::{Label, MOST_GENERATION, NO_SLOT};
use stages::state::{Cursor, Kind, Marks, State};

// The slots that are out after the change; a number that no slot has changes nothing.
#[tactic(auto, using(crate::proofs::Answers::few_slots), unfolding(crate::specs::TakeOut::out_with))]
fn out_with(l: Label, d: usize) -> u64
    requires { fits_of l ≡ true }
    ensures { result ≡ out_with l d }
{
    if d < l.k + l.m {
        with_slot(l.out, d)
    } else {
        l.out
    }
}

// Whether there is nothing to take out of slot d: it is absent, or plainly out.
#[tactic(auto, using(crate::proofs::Answers::plainly_called), unfolding(crate::specs::TakeOut::out_now))]
fn out_now(l: Label, absent: u64, d: usize) -> bool
    ensures { result ≡ out_now l absent d }
{
    has(absent, d) || l.calls_out(d)
}

// The first refusal that applies, on a shelf that is started. idle: no request is under way.
#[tactic(auto, using(crate::proofs::Answers::few_slots), unfolding(crate::specs::TakeOut::out_answer))]
fn out_answer(l: Label, idle: bool, absent: u64, slot: usize, room: usize) -> Result<(), Refusal>
    requires { fits_of l ≡ true }
    ensures { result ≡ out_answer l idle absent slot room }
{
    let n = l.k + l.m;
    if l.m < count(out_with(l, slot)) as usize {
        return Err(Refusal::TooFew);
    }
    if n <= slot {
        return Err(Refusal::BadBlock);
    }
    if !idle {
        return Err(Refusal::Busy);
    }
    if out_now(l, absent, slot) || MOST_GENERATION <= l.generation {
        return Err(Refusal::NotNow);
    }
    if room != work_bytes(n, l.c) {
        return Err(Refusal::BadBuffer);
    }
    Ok(())
}

// The first refusal that applies.
#[tactic(auto, using(crate::specs::Accepted::ready_done))]
fn take_answer(
    l: Label,
    kind: Kind,
    absent: u64,
    image: &[u8],
    slot: usize,
    room: usize,
) -> Result<(), Refusal>
    ensures { result ≡ take_answer l kind absent image.now slot room }
{
    ready(l, kind, absent, image)?;
    out_answer(l, is_idle(kind), absent, slot, room)
}

// The label that takes slot d out. If d was being rebuilt it no longer is.
#[tactic(auto, unfolding(crate::specs::TakeOut::outed))]
fn out_label(l: Label, d: usize) -> Label
    requires { (d < mask_bits) × (l.generation < most_generation) }
    ensures { result ≡ outed l d }
{
    let next = Label {
        generation: l.generation + 1,
        out: with_slot(l.out, d),
        ..l
    };
    if l.rebuilding == d {
        Label {
            rebuilding: NO_SLOT,
            mark: 0,
            ..next
        }
    } else {
        next
    }
}

// The label change at its beginning.
#[tactic(auto, using(crate::proofs::Answers::few_slots))]
fn taken_out(s: State, slot: usize) -> State
    requires { (fits_of s.now ≡ true) × (slot < s.now.k + s.now.m) × (s.now.generation < most_generation) }
    ensures { result ≡ took_out s slot }
{
    let l = s.now;
    State {
        next: out_label(l, slot),
        marks: Marks {
            present: slots_but(s.absent, l.k + l.m),
            ..Marks::NONE
        },
        kind: Kind::Labelling,
        cursor: Cursor::START,
        ..s
    }
}

// Begins to take a slot out. Refused, in this order: no shelf is started NOT_NOW; another image BAD_IMAGE; a present disk whose
// label is not the state's NO_LABEL; more than m slots out after the change TOO_FEW; no such slot BAD_BLOCK; a request under way
// BUSY; the slot is absent or plainly out, or no generation is left, NOT_NOW; another work area BAD_BUFFER.
pub fn take_out(s: State, slot: usize, image: &[u8], room: usize) -> Result<State, Refusal>
    ensures { result ≡ take_out_of s slot image.now room }
{
    take_answer(s.now, s.kind, s.absent, image, slot, room)?;
    Ok(taken_out(s, slot))
}
