// The stages of each request, one after the other: a stage goes over its slots in order.
ghost use Rattle.std.specs.Prelude.{◌≡◌, ◌≤◌};
ghost use Rattle.label.specs.Fields.{most_generation};
ghost use Rattle.stages.specs.Stage.{round_stage, slots_of, late_stage, start_stage, create_stage, write_stage, last_stage, begin_stage, fill_stage, stage_for};

use crate::state::{Kind, Marks, State};
use label::fields::{Label, MOST_GENERATION};

// What is done to each of its slots: a flush; the label, or zeros over its sector; zeros over the record's tail; the strip
// from the record; the record of the shard that is kept in the work area, and that shard itself; zeros over the whole record;
// zeros over one sector of the label; strips that are computed from those of the other slots.
#[derive(Clone, Copy)]
pub enum Stage {
    Flush {
        slots: u64,
    },
    Give {
        slots: u64,
        zeroed: u64,
        label: Label,
    },
    Wipe {
        slots: u64,
    },
    Restore {
        slots: u64,
        stripe: usize,
    },
    Log {
        slots: u64,
        stripe: usize,
        shards: u64,
    },
    Store {
        slots: u64,
        stripe: usize,
    },
    Clear {
        slots: u64,
    },
    Erase {
        slots: u64,
        odd: bool,
    },
    Fill {
        slots: u64,
        first: usize,
        count: usize,
    },
    End,
}

// The slots of a stage.
pub fn slots_of(stage: Stage) -> u64
    ensures { result ≡ slots_of stage }
{
    match stage {
        Stage::Flush { slots }
        | Stage::Give { slots, .. }
        | Stage::Wipe { slots }
        | Stage::Restore { slots, .. }
        | Stage::Log { slots, .. }
        | Stage::Store { slots, .. }
        | Stage::Clear { slots }
        | Stage::Erase { slots, .. }
        | Stage::Fill { slots, .. } => slots,
        Stage::End => 0,
    }
}

// A round: the label to each slot, then a flush of each.
#[tactic(auto, unfolding(crate::specs::Stage::round_stage))]
fn round_stage(i: usize, slots: u64, label: Label) -> Stage
    ensures { result ≡ round_stage i slots label }
{
    match i {
        0 => Stage::Give {
            slots,
            zeroed: 0,
            label,
        },
        1 => Stage::Flush { slots },
        _ => Stage::End,
    }
}

// Start-up behind its rounds: the stale slots are prepared and adopt the settled label; then the log.
#[tactic(auto, unfolding(crate::specs::Stage::late_stage))]
fn late_stage(s: State, i: usize) -> Stage
    requires { s.now.generation ≤ most_generation }
    ensures { result ≡ late_stage s i }
{
    match i {
        0 => Stage::Give {
            slots: s.marks.prep,
            zeroed: s.marks.zeroed,
            label: Label {
                generation: s.now.generation + 1,
                ..s.next
            },
        },
        1 => Stage::Flush {
            slots: s.marks.prep,
        },
        2 | 3 => round_stage(i - 2, s.marks.late, s.next),
        4 if s.marks.forward => Stage::Restore {
            slots: s.marks.redo,
            stripe: s.marks.stripe,
        },
        4 => Stage::Wipe {
            slots: s.marks.redo,
        },
        5 => Stage::Flush {
            slots: s.marks.redo,
        },
        _ => Stage::End,
    }
}

// Start-up: a flush of all, then three rounds: the label as it stands, once more with the next generation, and the one
// that it settles.
#[tactic(auto, unfolding(crate::specs::Stage::start_stage))]
fn start_stage(s: State, i: usize) -> Stage
    requires { s.now.generation ≤ most_generation }
    ensures { result ≡ start_stage s i }
{
    let again = Label {
        generation: s.now.generation + 1,
        ..s.now
    };
    match i {
        0 => Stage::Flush {
            slots: s.marks.present,
        },
        1 | 2 => round_stage(i - 1, s.marks.parts, s.now),
        3 | 4 => round_stage(i - 3, s.marks.parts, again),
        5 | 6 => round_stage(i - 5, s.marks.parts, s.next),
        _ => late_stage(s, i - 7),
    }
}

// Create: a flush of all, then the first label to all.
#[tactic(auto, unfolding(crate::specs::Stage::create_stage))]
fn create_stage(s: State, i: usize) -> Stage
    ensures { result ≡ create_stage s i }
{
    match i {
        0 => Stage::Flush {
            slots: s.marks.present,
        },
        _ => round_stage(i - 1, s.marks.present, s.next),
    }
}

// A write: the records, flushed, and then the strips, flushed.
#[tactic(auto, unfolding(crate::specs::Stage::write_stage))]
fn write_stage(marks: Marks, i: usize) -> Stage
    ensures { result ≡ write_stage marks i }
{
    match i {
        0 => Stage::Log {
            slots: marks.redo,
            stripe: marks.stripe,
            shards: marks.parts,
        },
        2 => Stage::Store {
            slots: marks.redo,
            stripe: marks.stripe,
        },
        1 | 3 => Stage::Flush { slots: marks.redo },
        _ => Stage::End,
    }
}

// Begin from its record on: the record is cleared, the disk prepared, and the label told to all.
#[tactic(auto, unfolding(crate::specs::Stage::last_stage))]
fn last_stage(s: State, i: usize) -> Stage
    ensures { result ≡ last_stage s i }
{
    match i {
        0 => Stage::Clear {
            slots: s.marks.redo,
        },
        1 => Stage::Flush {
            slots: s.marks.redo,
        },
        2 => Stage::Give {
            slots: s.marks.prep,
            zeroed: s.marks.zeroed,
            label: s.now,
        },
        3 => Stage::Flush {
            slots: s.marks.prep,
        },
        _ => round_stage(i - 4, s.marks.present, s.next),
    }
}

// Begin: a flush of the slot, then zeros over labels of another shelf, one at a time, each flushed.
#[tactic(auto, unfolding(crate::specs::Stage::begin_stage))]
fn begin_stage(s: State, i: usize) -> Stage
    ensures { result ≡ begin_stage s i }
{
    match i {
        0 => Stage::Flush {
            slots: s.marks.redo,
        },
        1 => Stage::Erase {
            slots: s.marks.parts,
            odd: s.marks.forward,
        },
        2 => Stage::Flush {
            slots: s.marks.parts,
        },
        3 => Stage::Erase {
            slots: s.marks.late,
            odd: !s.marks.forward,
        },
        4 => Stage::Flush {
            slots: s.marks.late,
        },
        _ => last_stage(s, i - 5),
    }
}

// A rebuild: the strips from the mark on, flushed, and then the label with the mark behind them, told to all.
#[tactic(auto, unfolding(crate::specs::Stage::fill_stage))]
fn fill_stage(s: State, i: usize) -> Stage
    ensures { result ≡ fill_stage s i }
{
    match i {
        0 => Stage::Fill {
            slots: s.marks.redo,
            first: s.now.mark,
            count: s.marks.stripe,
        },
        1 => Stage::Flush {
            slots: s.marks.redo,
        },
        _ => round_stage(i - 2, s.marks.present, s.next),
    }
}

// The stage at which the request is; none where the label's generation is out of range.
pub fn stage_of(s: State) -> Stage
    ensures { result ≡ stage_for s }
{
    if MOST_GENERATION < s.now.generation {
        return Stage::End;
    }
    let i = s.cursor.stage;
    match s.kind {
        Kind::Nothing | Kind::Idle => Stage::End,
        Kind::Creating => create_stage(s, i),
        Kind::Starting => start_stage(s, i),
        Kind::Labelling => round_stage(i, s.marks.present, s.next),
        Kind::Writing => write_stage(s.marks, i),
        Kind::Beginning => begin_stage(s, i),
        Kind::Filling => fill_stage(s, i),
    }
}
