// The shelf's requests create, start up and take out, and its status. A request that is accepted becomes a state, and the
// steps of the shelf then carry it out; a refusal leaves the state as it was.
#![tactic(auto)]

pub mod begun;
pub mod create;
pub mod ready;
pub mod start;
pub mod status;
pub mod step;
pub mod take_out;
