// The shelf: requests and steps on a lent image. A request that is accepted becomes a state; each step then does the next
// action, a put of one sector or a flush of one slot, and hands the state back. Nothing is kept between calls but that
// value, and any value is taken.
#![tactic(auto)]

mod act;
pub mod fill;
mod kept;
pub mod step;
