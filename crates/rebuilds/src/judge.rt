// The refusals of both requests, in the order of the table.
ghost use Rattle.std.specs.Prelude.{◌≡◌, true};
ghost use Rattle.label.specs.Fields.{fits_of};
ghost use Rattle.rebuilds.specs.Judge.{too_few, last_one, sized, judged};

use disk::mask::count;
use disk::refusal::Refusal;
use label::fields::{Label, MOST_GENERATION};
use requests::begun::work_bytes;

// Whether more than m slots are out or absent.
#[tactic(auto, unfolding(crate::specs::Judge::too_few))]
pub(crate) fn too_few(l: Label, absent: u64) -> bool
    ensures { result ≡ too_few l absent }
{
    l.m < count(l.out | absent) as usize
}

// Whether no generation is left.
#[tactic(auto, unfolding(crate::specs::Judge::last_one))]
pub(crate) fn is_last(l: Label) -> bool
    ensures { result ≡ last_one l }
{
    MOST_GENERATION <= l.generation
}

// Whether a work area of so many bytes is the shelf's.
#[tactic(auto, using(requests::proofs::Answers::few_slots), unfolding(crate::specs::Judge::sized))]
pub(crate) fn is_sized(l: Label, room: usize) -> bool
    requires { fits_of l ≡ true }
    ensures { result ≡ sized l room }
{
    room == work_bytes(l.k + l.m, l.c)
}

// The first refusal that applies: too few slots are left, there is no such slot, another request is under way, this is not the time,
// the work area is another one.
#[tactic(auto, unfolding(crate::specs::Judge::judged))]
pub(crate) fn judge(
    few: bool,
    beyond: bool,
    idle: bool,
    never: bool,
    sized: bool,
) -> Result<(), Refusal>
    ensures { result ≡ judged few beyond idle never sized }
{
    if few {
        return Err(Refusal::TooFew);
    }
    if beyond {
        return Err(Refusal::BadBlock);
    }
    if !idle {
        return Err(Refusal::Busy);
    }
    if never {
        return Err(Refusal::NotNow);
    }
    if !sized {
        return Err(Refusal::BadBuffer);
    }
    Ok(())
}
