// What the program remembers between two steps.
ghost use Rattle.std.specs.Prelude.{◌≡◌};
ghost use Rattle.stages.specs.State.{moved, rested};

use label::fields::Label;

// What is under way. Nothing: no shelf is started. Labelling: one label change. Writing: the log, then the strips. Beginning: a
// disk is readied for its rebuild. Filling: strips of it are rebuilt. Each has its number, by which a state is kept as bytes.
#[derive(Clone, Copy, PartialEq, Eq)]
pub enum Kind {
    Nothing = 0,
    Idle = 1,
    Creating = 2,
    Starting = 3,
    Labelling = 4,
    Writing = 5,
    Beginning = 6,
    Filling = 7,
}

// Where a request is: its stage, and slot and sector in it.
#[derive(Clone, Copy)]
pub struct Cursor {
    pub stage: usize,
    pub slot: usize,
    pub sector: usize,
}

impl Cursor {
    // The first sector of the first slot of the first stage.
    pub const START: Cursor = Cursor {
        stage: 0,
        slot: 0,
        sector: 0,
    };
}

// What the request under way goes by, each a mask of slots. present: the present ones (none for a write). Of start-up: parts take part in its
// rounds; late adopt the settled label; prep and zeroed of these are prepared, with zeros; redo are redone from their
// records of this stripe (forward), or their records are wiped. Of a write: redo are logged and then written, and parts are the
// shards of this stripe that it changes. Of begin: redo is the slot; parts and then late have a label of another shelf in sector 1
// and then 0 (forward), or in 0 and then 1; prep and zeroed as for start-up. Of a rebuild: redo is the slot, stripe the number of
// strips, forward whether survivors contradicted each other.
#[derive(Clone, Copy)]
pub struct Marks {
    pub present: u64,
    pub parts: u64,
    pub late: u64,
    pub prep: u64,
    pub zeroed: u64,
    pub redo: u64,
    pub stripe: usize,
    pub forward: bool,
}

impl Marks {
    // No slot in any mask.
    pub const NONE: Marks = Marks {
        present: 0,
        parts: 0,
        late: 0,
        prep: 0,
        zeroed: 0,
        redo: 0,
        stripe: 0,
        forward: false,
    };
}

// now: the settled label (while starting: the one that was read). next: the label that the request under way settles.
// epoch and count: the stamp of the last write.
#[derive(Clone, Copy)]
pub struct State {
    pub now: Label,
    pub next: Label,
    pub absent: u64,
    pub epoch: u64,
    pub count: u64,
    pub marks: Marks,
    pub kind: Kind,
    pub cursor: Cursor,
}

// What a step did. Done: the request under way has succeeded.
#[derive(Clone, Copy, PartialEq, Eq)]
pub enum Did {
    Put { slot: usize, sector: usize },
    Flush { slot: usize },
    Done,
}

// The state after a step, and what the step did.
#[derive(Clone, Copy)]
pub struct Stepped {
    pub state: State,
    pub did: Did,
}

// The state with another cursor.
pub fn at(s: State, stage: usize, slot: usize, sector: usize) -> State
    ensures { result ≡ moved s stage slot sector }
{
    State {
        cursor: Cursor {
            stage,
            slot,
            sector,
        },
        ..s
    }
}

// The state when the request is done: its label is settled.
pub fn rest(s: State) -> State
    ensures { result ≡ rested s }
{
    State {
        now: s.next,
        kind: Kind::Idle,
        cursor: Cursor::START,
        ..s
    }
}
