// Scrub: what the code says of a stripe, with the write under way laid over.
ghost use Rattle.std.specs.Prelude.{◌≡◌, true, ◌&&◌, length, Ok};
ghost use Rattle.label.specs.Fields.{fits_of};
ghost use Rattle.blocks.specs.Slots.{none_missing};
ghost use Rattle.blocks.specs.Read.{laid_over};
ghost use Rattle.blocks.specs.Scrub.{scrub_answer, Scrubs, ScrubbedBy, SaysOf};

use crate::answers::{is_served, is_sized, look_answer, stripe_answer};
use crate::read::laid_over;
use crate::slots::{none_missing, slots_there};
use code::Verdict;
use disk::limits::{MOST_N, SECTOR};
use disk::refusal::Refusal;
use label::fields::Label;
use stages::state::{Kind, State};
use strips::seen::Source;

// The bytes of the largest stripe.
pub const MOST_STRIPE: usize = MOST_N * 8 * SECTOR;

// Whether the request makes sense otherwise, and nothing is missing.
pub(crate) fn is_whole(sense: bool, l: Label, absent: u64) -> bool
    requires { fits_of l ≡ true }
    ensures { result ≡ (sense && none_missing l absent) }
{
    sense && none_missing(l, absent)
}

// The first refusal that applies to a scrub.
fn scrub_answer(
    l: Label,
    kind: Kind,
    absent: u64,
    t: usize,
    len: usize,
    room: usize,
) -> Result<(), Refusal>
    ensures { result ≡ scrub_answer l kind absent t len room }
{
    look_answer(l, kind, len)?;
    let whole = is_whole(is_served(kind), l, absent);
    stripe_answer(l, absent, true, whole, is_sized(l, room), t)
}

// Scrubs stripe t of a shelf with this label.
fn scrub_of(
    image: &[u8],
    l: Label,
    absent: u64,
    over: u64,
    work: &[u8],
    t: usize,
) -> Result<Verdict, Refusal>
    requires { Scrubs l absent image.now work.now t }
    ensures { ScrubbedBy (Ok tt) (SaysOf l absent over image.now work.now t) result }
{
    let g = l.geometry();
    let there = slots_there(g, l, absent, t);
    let half = g.n * (g.c * SECTOR);
    let mut room = [0u8; MOST_STRIPE];
    let from = Source {
        image,
        g,
        there,
        over,
        kept: &work[..half],
    };
    from.scrub(l.k, t, &mut room[..half])
}

// Scrubs stripe t. Refused, in this order: no shelf is started NOT_NOW; another image BAD_IMAGE; more than m slots missing TOO_FEW; no such
// stripe BAD_BLOCK; create or start-up has not answered, or a slot is out or absent, NOT_NOW; another work area BAD_BUFFER.
pub fn scrub_stripe(s: State, t: usize, image: &[u8], work: &[u8]) -> Result<Verdict, Refusal>
    ensures { ScrubbedBy (scrub_answer s.now s.kind s.absent t (length image.now) (length work.now)) (SaysOf s.now s.absent (laid_over s t) image.now work.now t) result }
{
    scrub_answer(s.now, s.kind, s.absent, t, image.len(), work.len())?;
    scrub_of(image, s.now, s.absent, laid_over(s, t), work, t)
}
