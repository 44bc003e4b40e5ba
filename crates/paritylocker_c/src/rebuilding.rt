// The rebuild of a slot: begin, then on until it is healthy. State and work area are lent bytes of which any content is taken.
ghost use Rattle.std.specs.Prelude.{◌≡◌, length};
ghost use Rattle.memory.specs.Bytes.{state_at};
ghost use Rattle.rebuilds.specs.Begin.{begin_of};
ghost use Rattle.rebuilds.specs.On.{on_of};
ghost use Rattle.paritylocker_c.specs.Shelf.{begun_number, after_begun};

use crate::shelves::keep;
use memory::read;
use rebuilds::begin::begin;
use rebuilds::on::rebuild_on;

// Begins the rebuild of a slot, or begins it again.
#[unsafe(no_mangle)]
pub extern "C" fn pl_begin(slot: u32, image: &mut [u8], state: &mut [u8], work: &mut [u8]) -> u32
    ensures { (result ≡ begun_number (begin_of (state_at state.old) slot image.old (length work.old)) (length state.old))
        × (state.new ≡ after_begun (begin_of (state_at state.old) slot image.old (length work.old)) state.old)
        × (image.new ≡ image.old) × (work.new ≡ work.old) }
{
    let s = read(state);
    keep(begin(s, slot as usize, image, work.len()), state)
}

// Rebuilds the next strips of the slot being rebuilt, at most `batch` of them and one at least.
#[unsafe(no_mangle)]
pub extern "C" fn pl_rebuild_on(
    batch: u32,
    image: &mut [u8],
    state: &mut [u8],
    work: &mut [u8],
) -> u32
    ensures { (result ≡ begun_number (on_of (state_at state.old) batch image.old (length work.old)) (length state.old))
        × (state.new ≡ after_begun (on_of (state_at state.old) batch image.old (length work.old)) state.old)
        × (image.new ≡ image.old) × (work.new ≡ work.old) }
{
    let s = read(state);
    keep(rebuild_on(s, batch as usize, image, work.len()), state)
}
