// The shelf's two requests that rebuild a slot: begin, which readies its disk, and on, which rebuilds strips of it. A request that is
// accepted becomes a state, and the steps of the shelf then carry it out; a refusal leaves the caller's state as it was.
#![tactic(auto)]

pub mod begin;
mod judge;
mod next;
pub mod on;
mod readied;
mod survivors;
