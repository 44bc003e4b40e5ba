// The order of writes: what the shelf remembers between two steps, and which stage of the request under way comes next, with
// its slots and its label. Nothing is read or written here. Every public function takes any value.
#![tactic(auto)]

pub mod limits;
pub mod stage;
pub mod state;
