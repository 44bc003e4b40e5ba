// The shelf: its requests and steps. State and work area are lent bytes of which any content is taken.
ghost use Rattle.std.specs.Prelude.{◌≡◌, length};
ghost use Rattle.memory.specs.Bytes.{state_length, state_at};
ghost use Rattle.stages.specs.Told.{answer_of};
ghost use Rattle.requests.specs.Begun.{work_bytes};
ghost use Rattle.requests.specs.Create.{create_of};
ghost use Rattle.requests.specs.Start.{start_of};
ghost use Rattle.requests.specs.TakeOut.{take_out_of};
ghost use Rattle.requests.specs.Step.{step_with};
ghost use Rattle.paritylocker_c.specs.Labels.{number_of_outcome};
ghost use Rattle.paritylocker_c.specs.Ended.{done_number};
ghost use Rattle.paritylocker_c.specs.Shelf.{area_of, begun_number, after_begun, answer_number, after_answer, status_number, status_leaves};

use crate::ended::done_number;
use crate::labels::outcome;
use disk::geometry::Geometry;
use disk::refusal::{Refusal, number};
use memory::{read, state_bytes, write};
use requests::begun::work_bytes;
use requests::create::create;
use requests::start::start;
use requests::status::status;
use requests::step::step;
use requests::take_out::take_out;
use stages::state::{Did, State};

// The bytes of a state.
#[unsafe(no_mangle)]
pub extern "C" fn pl_state_bytes() -> usize
    ensures { result ≡ state_length }
{
    state_bytes()
}

// The bytes of the work area of a shelf of n slots and strips of c sectors; 0 where there is no such shelf.
#[unsafe(no_mangle)]
pub extern "C" fn pl_work_bytes(n: u8, c: u8) -> usize
    ensures { result ≡ work_bytes n c }
{
    work_bytes(n as usize, c as usize)
}

// Keeps the state of a request that is accepted. 0, or the refusal's code.
pub(crate) fn keep(begun: Result<State, Refusal>, state: &mut [u8]) -> u32
    ensures { (result ≡ begun_number begun (length state.old)) × (state.new ≡ after_begun begun state.old) }
{
    match begun {
        Ok(first) => outcome(write(first, state)),
        Err(why) => number(why),
    }
}

// Begins to create a shelf.
#[unsafe(no_mangle)]
pub extern "C" fn pl_create(
    k: u8,
    m: u8,
    c: u8,
    sectors: u32,
    shelf: u64,
    image: &mut [u8],
    state: &mut [u8],
    work: &mut [u8],
) -> u32
    ensures { (result ≡ begun_number (create_of k m c sectors shelf image.old (length work.old)) (length state.old))
        × (state.new ≡ after_begun (create_of k m c sectors shelf image.old (length work.old)) state.old)
        × (image.new ≡ image.old) × (work.new ≡ work.old) }
{
    let begun = create(
        k as usize,
        m as usize,
        c as usize,
        sectors as usize,
        shelf,
        image,
        work.len(),
    );
    keep(begun, state)
}

// Begins to start a shelf up.
#[unsafe(no_mangle)]
pub extern "C" fn pl_start(
    n: u8,
    c: u8,
    sectors: u32,
    absent: u64,
    image: &mut [u8],
    state: &mut [u8],
    work: &mut [u8],
) -> u32
    ensures { (result ≡ begun_number (start_of (record { n = n; c = c; sectors = sectors }) absent image.old (length work.old)) (length state.old))
        × (state.new ≡ after_begun (start_of (record { n = n; c = c; sectors = sectors }) absent image.old (length work.old)) state.old)
        × (image.new ≡ image.old) × (work.new ≡ work.old) }
{
    let g = Geometry {
        n: n as usize,
        c: c as usize,
        sectors: sectors as usize,
    };
    keep(start(g, absent, image, work.len()), state)
}

// Begins to take a slot out.
#[unsafe(no_mangle)]
pub extern "C" fn pl_take_out(slot: u32, image: &mut [u8], state: &mut [u8], work: &mut [u8]) -> u32
    ensures { (result ≡ begun_number (take_out_of (state_at state.old) slot image.old (length work.old)) (length state.old))
        × (state.new ≡ after_begun (take_out_of (state_at state.old) slot image.old (length work.old)) state.old)
        × (image.new ≡ image.old) × (work.new ≡ work.old) }
{
    let s = read(state);
    keep(take_out(s, slot as usize, image, work.len()), state)
}

// The number of what a step did: kind + 256 * slot + 65536 * sector. done: the number of a request that is done.
fn did_number(did: Did, done: u64) -> u64
    ensures { result ≡ answer_number done (answer_of did) }
{
    match did {
        Did::Put { slot, sector } => 1
            + 256 * ((slot % 256) as u64)
            + 65536 * ((sector % 4294967296) as u64),
        Did::Flush { slot } => 2 + 256 * ((slot % 256) as u64),
        Did::Done => done,
    }
}

// The work area counts for nothing where the state can't be kept.
fn area(work: &[u8], state: usize) -> &[u8]
    ensures { result.now ≡ area_of work.now state }
{
    if state == state_bytes() {
        return work;
    }
    &work[..0]
}

// Does the next action of the request under way.
#[unsafe(no_mangle)]
pub extern "C" fn pl_step(image: &mut [u8], state: &mut [u8], work: &mut [u8]) -> u64
    ensures { (result ≡ answer_number (done_number (state_at state.old)) (step_with (state_at state.old) image.old (area_of work.old (length state.old))).stepped.answer)
        × (image.new ≡ (step_with (state_at state.old) image.old (area_of work.old (length state.old))).image)
        × (state.new ≡ after_answer (step_with (state_at state.old) image.old (area_of work.old (length state.old))).stepped.answer
        (step_with (state_at state.old) image.old (area_of work.old (length state.old))).stepped.state state.old)
        × (work.new ≡ work.old) }
{
    let s = read(state);
    let end = done_number(s.kind, s.now, s.next, s.marks);
    match step(s, image, area(work, state.len())) {
        Err(why) => 256 * u64::from(number(why)),
        Ok(done) => {
            let _ = write(done.state, state);
            did_number(done.did, end)
        }
    }
}

// Tells of the shelf that is started.
#[unsafe(no_mangle)]
pub extern "C" fn pl_status(state: &[u8], fields: &mut [u64]) -> u32
    ensures { (result ≡ status_number state.now (length fields.old)) × (fields.new ≡ status_leaves state.now fields.old) }
{
    if state.len() != state_bytes() {
        return number(Refusal::BadBuffer);
    }
    outcome(status(read(state), fields))
}
