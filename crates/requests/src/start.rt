// Start-up: everything that it will do is decided by what is read now.
ghost use Rattle.std.specs.Prelude.{◌≡◌, ◌≤◌};
ghost use Rattle.disk.specs.Limits.{most_n};
ghost use Rattle.requests.specs.Start.{marks_by, started, start_of};

use crate::begun::{slots_but, work_bytes};
use disk::geometry::Geometry;
use disk::refusal::Refusal;
use redo::{Redo, decide};
use rounds::plan::Plan;
use rounds::survey::survey;
use stages::state::{Cursor, Kind, Marks, State};

// What start-up goes by: who takes part, who adopts, and what is done about the log. Whoever adopts is prepared first.
fn marks_by(present: u64, p: Plan, log: Redo) -> Marks
    ensures { result ≡ marks_by present p log }
{
    let base = Marks {
        present,
        parts: p.parts,
        late: p.late,
        prep: p.late,
        zeroed: p.zeroed,
        ..Marks::NONE
    };
    match log {
        Redo::Nothing => base,
        Redo::Forward { stripe, slots } => Marks {
            redo: slots,
            stripe,
            forward: true,
            ..base
        },
        Redo::Kill { slots } => Marks {
            redo: slots,
            ..base
        },
    }
}

// Start-up at its beginning.
fn begin(image: &[u8], g: Geometry, absent: u64, p: Plan) -> State
    requires { g.n ≤ most_n }
    ensures { result ≡ started g absent p image.now }
{
    State {
        now: p.lead,
        next: p.next,
        absent,
        epoch: p.next.generation,
        count: 0,
        marks: marks_by(slots_but(absent, g.n), p, decide(image, g, p.next)),
        kind: Kind::Starting,
        cursor: Cursor::START,
    }
}

// Begins to start up, for which no state is needed; n, c and S are the caller's, and `absent` is the mask of the absent slots. The
// refusals are those of the survey; then a work area of another size is BAD_BUFFER.
pub fn start(g: Geometry, absent: u64, image: &[u8], room: usize) -> Result<State, Refusal>
    ensures { result ≡ start_of g absent image.now room }
{
    let p = survey(image, g, absent)?;
    if room != work_bytes(g.n, g.c) {
        return Err(Refusal::BadBuffer);
    }
    Ok(begin(image, g, absent, p))
}
