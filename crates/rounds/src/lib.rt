// What start-up makes of the labels: the shelf's label as it stands, the one that it will settle, and who takes part in
// the rounds that settle it; or why it refuses. Nothing is written here. What it all means stands in specs/.
#![tactic(auto)]

pub mod plan;
pub mod slot;
pub mod survey;
