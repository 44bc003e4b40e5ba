// A stripe of a shelf as it is seen in the lent image, and with what is lost filled in. Between the image and the code: which slots'
// strips are believed, which shards are lost, and the sectors of a stripe's shards, gathered from the image and from a stripe that is
// kept beside it. Every public function takes any numbers and any slices, and refuses what is out of range.
#![tactic(auto)]

pub mod believed;
pub mod list;
pub mod lost;
pub mod seen;
pub mod shown;
pub mod whole;
