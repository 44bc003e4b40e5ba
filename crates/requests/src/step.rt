// A step, where the work area has its size.
ghost use Rattle.std.specs.Prelude.{◌≡◌, true};
ghost use Rattle.label.specs.Fields.{fits_of};
ghost use Rattle.stages.specs.Told.{told};
ghost use Rattle.requests.specs.Step.{other_work, step_with};

use crate::begun::work_bytes;
use disk::refusal::Refusal;
use disk::sector::fits_image;
use label::fields::Label;
use shelf::step::in_range;
use stages::state::{State, Stepped};

// Whether the image is that of the label's shelf, and the work area is not.
#[tactic(auto, using(crate::proofs::Answers::few_slots), unfolding(crate::specs::Step::other_work))]
fn other_work(l: Label, len: usize, room: usize) -> bool
    requires { fits_of l ≡ true }
    ensures { result ≡ other_work l len room }
{
    let g = l.geometry();
    fits_image(g, len) && room != work_bytes(g.n, g.c)
}

// Does the next action of the request under way, or says that it is done. The refusals are those of the shelf's step; then a
// work area of another size is BAD_BUFFER. A refusal changes nothing.
pub fn step(s: State, image: &mut [u8], work: &[u8]) -> Result<Stepped, Refusal>
    ensures { (told s result ≡ (step_with s image.old work.now).stepped) × (image.new ≡ (step_with s image.old work.now).image) }
{
    if in_range(s) && other_work(s.now, image.len(), work.len()) {
        return Err(Refusal::BadBuffer);
    }
    shelf::step::step(s, work, image)
}
