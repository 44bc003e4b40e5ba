// The host's blocks: read, write, and the scrub and repair of a stripe. A write or a repair that is accepted becomes a state, with its
// stripe in the work area, and the steps of the shelf then carry it out. Every function takes any state and any slices.
#![tactic(auto)]

mod answers;
pub mod read;
pub mod repair;
pub mod scrub;
mod slots;
pub mod write;
