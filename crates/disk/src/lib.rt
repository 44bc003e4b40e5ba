// The bytes of a shelf, below labels and log records: its limits and refusals, where a sector, a strip, a shard and a
// block lie, sectors of the lent image, numbers in a sector, and masks of slots. Every public function takes any numbers
// and any slice, and refuses what is out of range.
#![tactic(auto)]

pub mod geometry;
pub mod limits;
pub mod mask;
pub mod number;
pub mod refusal;
pub mod sector;
