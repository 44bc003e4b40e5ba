// What the requests of blocks and stripes are refused for, in the document's order.
ghost use Rattle.std.specs.Prelude.{◌≡◌, true, ◌≤◌, ltb};
ghost use Rattle.disk.specs.Limits.{most_c};
ghost use Rattle.disk.specs.Geometry.{in_range_with, blocks_of};
ghost use Rattle.label.specs.Fields.{fits_of};
ghost use Rattle.blocks.specs.Answers.{serves, look_answer, answered, sizes, block_answer, sized_of, stripe_answer};

use crate::slots::too_few;
use disk::geometry::{Geometry, place};
use disk::limits::SECTOR;
use disk::refusal::Refusal;
use disk::sector::fits_image;
use label::fields::Label;
use requests::begun::work_bytes;
use requests::ready::has_shelf;
use stages::state::Kind;
use strips::seen::has_stripe;

// Whether reads are served: create or start-up, if there was one, has answered.
pub(crate) fn is_served(kind: Kind) -> bool
    ensures { result ≡ serves kind }
{
    !matches!(kind, Kind::Nothing | Kind::Creating | Kind::Starting)
}

// What a request that changes nothing is refused for first: no shelf is started, or the slice is not its image.
pub(crate) fn look_answer(l: Label, kind: Kind, len: usize) -> Result<(), Refusal>
    ensures { result ≡ look_answer l kind len }
{
    if !has_shelf(l, kind) {
        return Err(Refusal::NotNow);
    }
    let g = l.geometry();
    if !fits_image(g, len) {
        return Err(Refusal::BadImage);
    }
    Ok(())
}

// The refusals that follow, by their tests: more than m slots missing; the block or stripe is there; nothing is under way; the
// request makes sense; the buffers have their sizes.
fn by_tests(few: bool, inside: bool, idle: bool, sense: bool, sized: bool) -> Result<(), Refusal>
    ensures { result ≡ answered few inside idle sense sized }
{
    if few {
        return Err(Refusal::TooFew);
    }
    if !inside {
        return Err(Refusal::BadBlock);
    }
    if !idle {
        return Err(Refusal::Busy);
    }
    if !sense {
        return Err(Refusal::NotNow);
    }
    if !sized {
        return Err(Refusal::BadBuffer);
    }
    Ok(())
}

// Whether the shelf has the block.
fn has_block(g: Geometry, k: usize, block: usize) -> bool
    requires { in_range_with g k ≡ true }
    ensures { result ≡ ltb block (blocks_of g k) }
{
    place(g, k, block).is_ok()
}

// Whether the data is a block, and the work area has its size.
#[tactic(auto, unfolding(crate::specs::Answers::sizes))]
fn block_sized(n: usize, c: usize, bytes: usize, room: usize) -> bool
    requires { c ≤ most_c }
    ensures { result ≡ sizes n c bytes room }
{
    room == work_bytes(n, c) && bytes == c * SECTOR
}

// The refusals of a read or a write of a block.
pub(crate) fn block_answer(
    l: Label,
    absent: u64,
    idle: bool,
    sense: bool,
    block: usize,
    bytes: usize,
    room: usize,
) -> Result<(), Refusal>
    requires { fits_of l ≡ true }
    ensures { result ≡ block_answer l absent idle sense block bytes room }
{
    let g = l.geometry();
    let few = too_few(l, absent);
    let inside = has_block(g, l.k, block);
    let sized = block_sized(g.n, g.c, bytes, room);
    by_tests(few, inside, idle, sense, sized)
}

// Whether the work area has its size.
pub(crate) fn is_sized(l: Label, room: usize) -> bool
    requires { fits_of l ≡ true }
    ensures { result ≡ sized_of l room }
{
    room == work_bytes(l.k + l.m, l.c)
}

// The refusals of a scrub or a repair of stripe t.
pub(crate) fn stripe_answer(
    l: Label,
    absent: u64,
    idle: bool,
    sense: bool,
    sized: bool,
    t: usize,
) -> Result<(), Refusal>
    requires { fits_of l ≡ true }
    ensures { result ≡ stripe_answer l absent idle sense sized t }
{
    let g = l.geometry();
    let few = too_few(l, absent);
    let inside = has_stripe(g, t);
    by_tests(few, inside, idle, sense, sized)
}
