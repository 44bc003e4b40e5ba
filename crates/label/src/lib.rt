// The label of a disk: its numbers and their ranges, its 512 bytes, and which of several is the newest. What a label is
// stands in specs/; every public function takes any numbers and any bytes, and refuses what is out of range.
#![tactic(auto)]

pub mod codec;
pub mod fields;
pub mod newest;
pub mod strange;
