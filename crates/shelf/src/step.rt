// The next step of what is under way.
ghost use Rattle.std.specs.Prelude.{◌≡◌, ◌+◌, ◌-◌, ◌≤◌, ◌<◌, Ok};
ghost use Rattle.disk.specs.Limits.{most_n, most_c, most_sectors};
ghost use Rattle.label.specs.Fields.{most_generation};
ghost use Rattle.stages.specs.Limits.{most_stages};
ghost use Rattle.stages.specs.Told.{told};
ghost use Rattle.shelf.specs.Step.{seek, is_end, on_stage, done, walk, kept, under_way, sound, step_move};

use crate::act::Turn;
use disk::geometry::Geometry;
use disk::mask::has;
use disk::refusal::Refusal;
use disk::sector::fits_image;
use label::fields::fits;
use stages::limits::MOST_STAGES;
use stages::stage::{Stage, slots_of, stage_of};
use stages::state::{Did, Kind, State, Stepped, at, rest};

// The first slot from `from` on that is in the mask, or n (or `from`, where that is above n).
fn find(mask: u64, n: usize, from: usize) -> usize
    ensures { result ≡ seek mask (n - from) from }
{
    (from..n).find(|d| has(mask, *d)).unwrap_or(n.max(from))
}

// Whether the request has no stage left.
fn is_end(stage: Stage) -> bool
    ensures { result ≡ is_end stage }
{
    matches!(stage, Stage::End)
}

// The request has succeeded.
fn finish(s: State) -> Stepped
    ensures { told s (Ok result) ≡ done s }
{
    Stepped {
        state: rest(s),
        did: Did::Done,
    }
}

// The next stage.
fn next_stage(s: State) -> State
    requires { s.cursor.stage < most_stages + most_stages }
    ensures { result ≡ on_stage s }
{
    at(s, s.cursor.stage + 1, 0, 0)
}

// Goes on to the first stage that has an action left, and does that; or the request is done.
fn go(s: State, g: Geometry, work: &[u8], image: &mut [u8]) -> Result<Stepped, Refusal>
    requires { (s.cursor.stage ≤ most_stages) × (s.cursor.sector < most_sectors) × (s.now.generation ≤ most_generation) × (g.n ≤ most_n) × (g.c ≤ most_c) }
    ensures { (told s result ≡ kept s (walk most_stages s g work.now image.old).stepped) × (image.new ≡ (walk most_stages s g work.now image.old).image) }
{
    let mut t = s;
    for _ in 0..MOST_STAGES {
        let stage = stage_of(t);
        if is_end(stage) {
            return Ok(finish(t));
        }
        let d = find(slots_of(stage), g.n, t.cursor.slot);
        if d < g.n {
            let turn = Turn {
                state: t,
                shelf: g,
                slot: d,
            };
            return turn.act(stage, work, image);
        }
        t = next_stage(t);
    }
    Ok(finish(t))
}

// Whether a request is under way.
fn under_way(kind: Kind) -> bool
    ensures { result ≡ under_way kind }
{
    !matches!(kind, Kind::Nothing | Kind::Idle)
}

// Whether the fields of a state are in range.
#[tactic(auto, unfolding(crate::specs::Step::sound))]
pub fn in_range(s: State) -> bool
    ensures { result ≡ sound s }
{
    fits(s.now)
        && under_way(s.kind)
        && s.cursor.stage <= MOST_STAGES
        && s.cursor.sector < s.now.sectors
}

// Does the next action of the request under way, or says that it is done. Any state is taken: one whose fields are out of
// range, or with nothing under way, is NOT_NOW, and a slice that is not this shelf's image BAD_IMAGE. The work area is what the
// request left there. A refused step leaves the state that was passed as it was.
pub fn step(s: State, work: &[u8], image: &mut [u8]) -> Result<Stepped, Refusal>
    ensures { (told s result ≡ (step_move s work.now image.old).stepped) × (image.new ≡ (step_move s work.now image.old).image) }
{
    if !in_range(s) {
        return Err(Refusal::NotNow);
    }
    let g = s.now.geometry();
    if !fits_image(g, image.len()) {
        return Err(Refusal::BadImage);
    }
    go(s, g, work, image)
}
