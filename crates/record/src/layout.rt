// The layout of a record's sectors, each number named once for the code. The contracts have the same names in
// specs/Layout.antt, and no proof holds where the two differ.
use disk::limits::SECTOR;

// A sector begins with the stamp. The first bytes of a strip's sector, as many as are left, stand behind it.
pub const STAMP: usize = 16;

pub const BODY: usize = SECTOR - STAMP;

// In the tail: the stripe, the shards, and from here on the bytes of each of the strip's sectors that had no room.
pub const STRIPE_AT: usize = 16;

pub const SHARDS_AT: usize = 24;

pub const RESTS_AT: usize = 32;

pub const REST: usize = SECTOR - BODY;
