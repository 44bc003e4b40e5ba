// What each changing request is refused for first: no shelf is started, the slice is not its image, or a present disk's label
// is not the one that the state knows, so that a state of another shelf, or of before a label change, harms nothing.
ghost use Rattle.std.specs.Prelude.{◌≡◌};
ghost use Rattle.label.specs.Newest.{all_of};
ghost use Rattle.requests.specs.Ready.{is_idle, has_shelf, holding, ready_of};

use disk::geometry::Geometry;
use disk::mask::has;
use disk::refusal::Refusal;
use disk::sector::fits_image;
use label::fields::{Label, fits};
use label::newest::disk_label;
use stages::state::Kind;

// Whether no request is under way on a shelf that is started.
pub fn is_idle(kind: Kind) -> bool
    ensures { result ≡ is_idle kind }
{
    kind == Kind::Idle
}

// Whether a shelf is started, or about to be.
#[tactic(auto, unfolding(crate::specs::Ready::has_shelf))]
pub fn has_shelf(l: Label, kind: Kind) -> bool
    ensures { result ≡ has_shelf l kind }
{
    kind != Kind::Nothing && fits(l)
}

// Whether slot d is absent, or its disk has the label l with its own number.
#[tactic(auto, unfolding(crate::specs::Ready::holding, crate::specs::Ready::same_label, label::specs::Newest::same_shelf))]
fn holds(image: &[u8], g: Geometry, absent: u64, l: Label, d: usize) -> bool
    ensures { result ≡ holding g image.now absent l d }
{
    has(absent, d) || disk_label(image, g, d).is_some_and(|x| Label { slot: d, ..l } == x)
}

// Whether each present disk has the label l with its own number.
fn all_hold(image: &[u8], g: Geometry, absent: u64, l: Label) -> bool
    ensures { result ≡ all_of (holding g image.now absent l) g.n }
{
    (0..g.n).all(|d| holds(image, g, absent, l, d))
}

// The first of these refusals. While a request is under way the labels are on their way too, and are not compared.
#[tactic(auto, using(crate::specs::Accepted::has_fits, crate::proofs::Answers::few_slots), unfolding(crate::specs::Ready::ready_of))]
pub fn ready(l: Label, kind: Kind, absent: u64, image: &[u8]) -> Result<(), Refusal>
    ensures { result ≡ ready_of l kind absent image.now }
{
    if !has_shelf(l, kind) {
        return Err(Refusal::NotNow);
    }
    let g = l.geometry();
    if !fits_image(g, image.len()) {
        return Err(Refusal::BadImage);
    }
    if is_idle(kind) && !all_hold(image, g, absent, l) {
        return Err(Refusal::NoLabel);
    }
    Ok(())
}
