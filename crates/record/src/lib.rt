// The log record of one write on one slot: c + 1 sectors of the slot's log area, each beginning with the write's stamp.
// They hold the slot's own new strip, and in the last one, the tail, which stripe and which shards the write changes.
// docs/LOG.md has the layout, byte by byte. Every public function takes any numbers and any slice.
#![tactic(auto)]

pub mod layout;
pub mod log;
pub mod stamp;
pub mod tail;
