// A state as a row of numbers, in the order of its declaration.
ghost use Rattle.std.specs.Prelude.{◌≡◌, ◌≤◌};
ghost use Rattle.memory.specs.Numbers.{kind_of, label_numbers, rest_numbers, label_of, marks_of, state_of};

use crate::words::NUMBERS;
use label::fields::Label;
use stages::state::{Cursor, Kind, Marks, State};

// Where the parts of a state begin in its row: its two labels, what is behind them, its marks, its kind and its cursor.
pub(crate) const NOW: usize = 0;

pub(crate) const NEXT: usize = 10;

pub(crate) const REST: usize = 20;

const MARKS: usize = 23;

const KIND: usize = 31;

const CURSOR: usize = 32;

// The kind that a number is. A number that is no kind's is Nothing's.
// Not a `From` of Kind's: only in a state's bytes does every number count as a kind.
fn kind_of(x: u64) -> Kind
    ensures { result ≡ kind_of x }
{
    match x {
        1 => Kind::Idle,
        2 => Kind::Creating,
        3 => Kind::Starting,
        4 => Kind::Labelling,
        5 => Kind::Writing,
        6 => Kind::Beginning,
        7 => Kind::Filling,
        _ => Kind::Nothing,
    }
}

// The numbers of a label.
pub(crate) fn label_numbers(l: Label) -> [u64; 10]
    ensures { result ≡ label_numbers l }
{
    [
        l.k as u64,
        l.m as u64,
        l.slot as u64,
        l.c as u64,
        l.sectors as u64,
        l.shelf,
        l.generation,
        l.out,
        l.rebuilding as u64,
        l.mark as u64,
    ]
}

// The numbers of a state behind those of its two labels.
pub(crate) fn rest_numbers(s: State) -> [u64; 15]
    ensures { result ≡ rest_numbers s }
{
    [
        s.absent,
        s.epoch,
        s.count,
        s.marks.present,
        s.marks.parts,
        s.marks.late,
        s.marks.prep,
        s.marks.zeroed,
        s.marks.redo,
        s.marks.stripe as u64,
        u64::from(s.marks.forward),
        s.kind as u64,
        s.cursor.stage as u64,
        s.cursor.slot as u64,
        s.cursor.sector as u64,
    ]
}

// The label whose numbers begin at number `from`.
fn label_of(a: [u64; NUMBERS], from: usize) -> Label
    requires { from ≤ 25 }
    ensures { result ≡ label_of a from }
{
    Label {
        k: a[from] as usize,
        m: a[from + 1] as usize,
        slot: a[from + 2] as usize,
        c: a[from + 3] as usize,
        sectors: a[from + 4] as usize,
        shelf: a[from + 5],
        generation: a[from + 6],
        out: a[from + 7],
        rebuilding: a[from + 8] as usize,
        mark: a[from + 9] as usize,
    }
}

// The marks, whose numbers begin at number 23.
fn marks_of(a: [u64; NUMBERS]) -> Marks
    ensures { result ≡ marks_of a }
{
    Marks {
        present: a[MARKS],
        parts: a[MARKS + 1],
        late: a[MARKS + 2],
        prep: a[MARKS + 3],
        zeroed: a[MARKS + 4],
        redo: a[MARKS + 5],
        stripe: a[MARKS + 6] as usize,
        forward: a[MARKS + 7] != 0,
    }
}

// The state whose numbers they are.
pub(crate) fn state_of(a: [u64; NUMBERS]) -> State
    ensures { result ≡ state_of a }
{
    State {
        now: label_of(a, NOW),
        next: label_of(a, NEXT),
        absent: a[REST],
        epoch: a[REST + 1],
        count: a[REST + 2],
        marks: marks_of(a),
        kind: kind_of(a[KIND]),
        cursor: Cursor {
            stage: a[CURSOR] as usize,
            slot: a[CURSOR + 1] as usize,
            sector: a[CURSOR + 2] as usize,
        },
    }
}
