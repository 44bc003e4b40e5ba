// The host's blocks: read and write one, scrub and repair a stripe. A state of another size is BAD_BUFFER at once: there is no shelf
// then by which anything else could be judged.
ghost use Rattle.std.specs.Prelude.{◌≡◌, length};
ghost use Rattle.memory.specs.Bytes.{state_at};
ghost use Rattle.blocks.specs.Read.{after_read};
ghost use Rattle.blocks.specs.Write.{Written};
ghost use Rattle.paritylocker_c.specs.Labels.{number_of_outcome};
ghost use Rattle.paritylocker_c.specs.Blocks.{read_with, write_with, scrub_with, Left, SaysAt, SmallFound, number_of_scrubbed, Scrubs, Mends};

use crate::labels::outcome;
use crate::shelves::keep;
use crate::verdict;
use blocks::read::read;
use blocks::repair::repair_stripe;
use blocks::scrub::scrub_stripe;
use blocks::write::write;
use code::Verdict;
use disk::refusal::{Refusal, number};
use memory::state_bytes;

// Reads a block.
#[unsafe(no_mangle)]
pub extern "C" fn pl_read(
    block: u64,
    bytes: &mut [u8],
    image: &[u8],
    state: &[u8],
    work: &[u8],
) -> u32
    ensures { (result ≡ number_of_outcome (read_with state.now block (length image.now) (length bytes.old) (length work.now)))
        × (bytes.new ≡ after_read (read_with state.now block (length image.now) (length bytes.old) (length work.now))
        (state_at state.now) block image.now work.now bytes.old) }
{
    if state.len() != state_bytes() {
        return number(Refusal::BadBuffer);
    }
    let s = memory::read(state);
    outcome(read(s, block as usize, bytes, image, work))
}

// Begins to write a block.
#[unsafe(no_mangle)]
pub extern "C" fn pl_write(
    block: u64,
    bytes: &[u8],
    image: &mut [u8],
    state: &mut [u8],
    work: &mut [u8],
) -> u32
    ensures { (result ≡ number_of_outcome (write_with state.old block image.old (length bytes.now) (length work.old)))
        × Left (write_with state.old block image.old (length bytes.now) (length work.old))
        (λ s. Written (state_at state.old) block bytes.now image.old work.old s work.new)
        state.old state.new work.old work.new
        × (image.new ≡ image.old) }
{
    if state.len() != state_bytes() {
        return number(Refusal::BadBuffer);
    }
    let s = memory::read(state);
    let begun = write(s, block as usize, bytes, image, work);
    keep(begun, state)
}

// The number of what a scrub found.
fn scrubbed_number(found: Result<Verdict, Refusal>) -> u32
    requires { SmallFound found }
    ensures { result ≡ number_of_scrubbed found }
{
    match found {
        Ok(v) => verdict(v),
        Err(why) => number(why),
    }
}

// Scrubs a stripe.
#[unsafe(no_mangle)]
pub extern "C" fn pl_scrub_stripe(
    stripe: u64,
    image: &mut [u8],
    state: &mut [u8],
    work: &mut [u8],
) -> u32
    ensures { Scrubs (scrub_with state.old stripe (length image.old) (length work.old))
        (SaysAt (state_at state.old) stripe image.old work.old) result
        × (image.new ≡ image.old) × (state.new ≡ state.old) × (work.new ≡ work.old) }
{
    if state.len() != state_bytes() {
        return number(Refusal::BadBuffer);
    }
    let s = memory::read(state);
    let found = scrub_stripe(s, stripe as usize, image, work);
    scrubbed_number(found)
}

// Begins to repair a stripe.
#[unsafe(no_mangle)]
pub extern "C" fn pl_repair_stripe(
    stripe: u64,
    image: &mut [u8],
    state: &mut [u8],
    work: &mut [u8],
) -> u32
    ensures { Mends state.old stripe image.old work.old result state.new work.new
        × (image.new ≡ image.old) }
{
    if state.len() != state_bytes() {
        return number(Refusal::BadBuffer);
    }
    let s = memory::read(state);
    let begun = repair_stripe(s, stripe as usize, image, work);
    keep(begun, state)
}
