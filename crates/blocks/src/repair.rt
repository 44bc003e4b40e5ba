// Repair: the accused shard of a stripe is mended in the work area, and the steps then log and store it like a write.
ghost use Rattle.std.specs.Prelude.{◌≡◌, true, ◌+◌, ◌*◌, ◌≤◌, ◌<◌, length, Ok};
ghost use Rattle.disk.specs.Limits.{most_sectors};
ghost use Rattle.label.specs.Fields.{fits_of};
ghost use Rattle.blocks.specs.Scrub.{Lies, ScrubbedBy};
ghost use Rattle.blocks.specs.Write.{most_count};
ghost use Rattle.blocks.specs.Repair.{stripe_bytes, may_repair, mending, RepairedOf, MayMend, Begins, Settling, Settles, Mended, Repairs};

use crate::answers::{is_sized, stripe_answer};
use crate::scrub::{MOST_STRIPE, is_whole};
use crate::slots::all_slots;
use crate::write::{stamp_left, stamped, write_marks};
use code::Verdict;
use disk::limits::SECTOR;
use disk::mask::with_slot;
use disk::refusal::Refusal;
use label::fields::Label;
use requests::ready::{is_idle, ready};
use stages::state::{Kind, State};
use strips::seen::Source;

// The first refusal that applies to a repair before the stripe is looked at.
#[tactic(auto, using(requests::specs::Accepted::ready_done))]
fn may_repair(
    l: Label,
    kind: Kind,
    absent: u64,
    count: u64,
    t: usize,
    image: &[u8],
) -> Result<(), Refusal>
    ensures { result ≡ may_repair l kind absent count t image.now }
{
    ready(l, kind, absent, image)?;
    let sense = is_whole(stamp_left(count), l, absent);
    stripe_answer(l, absent, is_idle(kind), sense, true, t)
}

// The write of shard r of stripe t at its beginning: the shard, its slot, and the stripe.
fn begin_mend(s: State, t: usize, r: usize) -> State
    requires { (fits_of s.now ≡ true) × (r < s.now.k + s.now.m) × (t ≤ most_sectors) × (s.count < most_count) }
    ensures { result ≡ mending s t r }
{
    let n = s.now.k + s.now.m;
    let parts = with_slot(0, r);
    let redo = with_slot(0, (r + t) % n);
    stamped(s, write_marks(parts, redo, t))
}

// Scrubs stripe t of a shelf with this label, and mends an accused shard.
fn mend_of(image: &[u8], l: Label, t: usize, stripe: &mut [u8]) -> Result<Verdict, Refusal>
    requires { Lies l image.now t × (length stripe.old ≡ stripe_bytes l) }
    ensures { ScrubbedBy (Ok tt) (λ v. RepairedOf l image.now t (Ok v) stripe.new) result }
{
    let g = l.geometry();
    let from = Source {
        image,
        g,
        there: all_slots(g.n),
        over: 0,
        kept: &[],
    };
    from.mend(l.k, t, stripe)
}

// Begins to write the mended shard r, the stripe of which goes into the first half of the work area.
fn take_mended(
    s: State,
    t: usize,
    r: usize,
    stripe: &[u8],
    work: &mut [u8],
) -> Result<State, Refusal>
    requires { (fits_of s.now ≡ true) × (r < s.now.k + s.now.m) × (t ≤ most_sectors) × (s.count < most_count) × (length stripe.now ≡ stripe_bytes s.now) }
    ensures { Begins s t r stripe.now work.old result work.new }
{
    let l = s.now;
    if !is_sized(l, work.len()) {
        return Err(Refusal::BadBuffer);
    }
    let half = (l.k + l.m) * (l.c * SECTOR);
    work[..half].copy_from_slice(stripe);
    Ok(begin_mend(s, t, r))
}

// By the verdict: where a shard is accused the repair begins.
fn settle(s: State, t: usize, v: Verdict, stripe: &[u8], work: &mut [u8]) -> Result<State, Refusal>
    requires { Settling s t v stripe.now }
    ensures { Settles s t v stripe.now work.old result work.new }
{
    match v {
        Verdict::Accused(r) => take_mended(s, t, r, stripe, work),
        Verdict::Sound | Verdict::Unsound => Err(Refusal::NotNow),
    }
}

// Scrubs and mends stripe t in `stripe`, and begins by what was found.
fn mend_into(
    s: State,
    t: usize,
    image: &[u8],
    stripe: &mut [u8],
    work: &mut [u8],
) -> Result<State, Refusal>
    requires { MayMend s image.now t × (length stripe.old ≡ stripe_bytes s.now) }
    ensures { Mended s t image.now work.old result work.new }
{
    let v = mend_of(image, s.now, t, stripe)?;
    settle(s, t, v, stripe, work)
}

// The same, apart from the work area, so that a refusal leaves that as it was.
fn mend_stripe(s: State, t: usize, image: &[u8], work: &mut [u8]) -> Result<State, Refusal>
    requires { MayMend s image.now t }
    ensures { Mended s t image.now work.old result work.new }
{
    let l = s.now;
    let half = (l.k + l.m) * (l.c * SECTOR);
    let mut room = [0u8; MOST_STRIPE];
    mend_into(s, t, image, &mut room[..half], work)
}

// Begins to repair stripe t. Refused, in this order: no shelf is started NOT_NOW; another image BAD_IMAGE; a present disk whose label is
// not the state's NO_LABEL; more than m slots missing TOO_FEW; no such stripe BAD_BLOCK; a request under way BUSY; a slot out or absent, no
// stamp left, or no shard accused NOT_NOW; another work area BAD_BUFFER. A refusal changes nothing.
pub fn repair_stripe(s: State, t: usize, image: &[u8], work: &mut [u8]) -> Result<State, Refusal>
    ensures { Repairs s t image.now work.old result work.new }
{
    may_repair(s.now, s.kind, s.absent, s.count, t, image)?;
    mend_stripe(s, t, image, work)
}
