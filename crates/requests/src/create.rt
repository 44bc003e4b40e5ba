// Create: a new shelf on an image of zeros.
ghost use Rattle.std.specs.Prelude.{◌≡◌, ◌≤◌};
ghost use Rattle.disk.specs.Limits.{most_k, most_m};
ghost use Rattle.requests.specs.Create.{shards_fit, shelf_fits, first_label, created, create_answer, create_of};

use crate::begun::{slots_but, work_bytes};
use disk::geometry::Geometry;
use disk::limits::{LEAST_K, LEAST_M, MOST_K, MOST_M};
use disk::refusal::Refusal;
use disk::sector::fits_image;
use label::codec::is_zero;
use label::fields::{Label, NO_SLOT};
use stages::state::{Cursor, Kind, Marks, State};

// Whether there may be k data shards and m parity shards.
#[tactic(auto, unfolding(crate::specs::Create::shards_fit))]
fn shards_fit(k: usize, m: usize) -> bool
    ensures { result ≡ shards_fit k m }
{
    (LEAST_K..=MOST_K).contains(&k) && (LEAST_M..=MOST_M).contains(&m)
}

// Whether a slice of len bytes is the image of such a shelf.
#[tactic(auto, using(crate::specs::Accepted::shards_say), unfolding(crate::specs::Create::shelf_fits))]
fn shelf_fits(k: usize, m: usize, c: usize, sectors: usize, len: usize) -> bool
    ensures { result ≡ shelf_fits k m c sectors len }
{
    shards_fit(k, m)
        && fits_image(
            Geometry {
                n: k + m,
                c,
                sectors,
            },
            len,
        )
}

// The label of a new shelf.
fn first_label(k: usize, m: usize, c: usize, sectors: usize, shelf: u64) -> Label
    ensures { result ≡ first_label k m c sectors shelf }
{
    Label {
        k,
        m,
        slot: 0,
        c,
        sectors,
        shelf,
        generation: 1,
        out: 0,
        rebuilding: NO_SLOT,
        mark: 0,
    }
}

// Create at its beginning, with every slot present.
#[tactic(auto, using(crate::specs::Slots::all_slots))]
fn new_shelf(k: usize, m: usize, c: usize, sectors: usize, shelf: u64) -> State
    requires { (k ≤ most_k) × (m ≤ most_m) }
    ensures { result ≡ created k m c sectors shelf }
{
    let l = first_label(k, m, c, sectors, shelf);
    State {
        now: l,
        next: l,
        absent: 0,
        epoch: 1,
        count: 0,
        marks: Marks {
            present: slots_but(0, k + m),
            ..Marks::NONE
        },
        kind: Kind::Creating,
        cursor: Cursor::START,
    }
}

// The first refusal that applies: numbers or a slice that are no shelf's BAD_IMAGE, an image that is not zeros throughout
// NOT_NOW, a work area of another size BAD_BUFFER.
#[tactic(auto, using(crate::specs::Accepted::shelf_shards), unfolding(crate::specs::Create::create_answer))]
fn create_answer(
    k: usize,
    m: usize,
    c: usize,
    sectors: usize,
    image: &[u8],
    room: usize,
) -> Result<(), Refusal>
    ensures { result ≡ create_answer k m c sectors image.now room }
{
    if !shelf_fits(k, m, c, sectors, image.len()) {
        return Err(Refusal::BadImage);
    }
    if !is_zero(image) {
        return Err(Refusal::NotNow);
    }
    if room != work_bytes(k + m, c) {
        return Err(Refusal::BadBuffer);
    }
    Ok(())
}

// Begins to create a shelf, for which no state is needed. The numbers come one by one, as in its clause and in pl_create.
pub fn create(
    k: usize,
    m: usize,
    c: usize,
    sectors: usize,
    shelf: u64,
    image: &[u8],
    room: usize,
) -> Result<State, Refusal>
    ensures { result ≡ create_of k m c sectors shelf image.now room }
{
    create_answer(k, m, c, sectors, image, room)?;
    Ok(new_shelf(k, m, c, sectors, shelf))
}
