// The limits of a shelf, each named once for the code. The contracts have the same names in specs/Limits.antt, and no
// proof holds where the two differ.

// Data shards, parity shards, and slots: n = k + m.
pub const LEAST_K: usize = 2;

pub const MOST_K: usize = 16;

pub const LEAST_M: usize = 1;

pub const MOST_M: usize = 3;

pub const LEAST_N: usize = LEAST_K + LEAST_M;

pub const MOST_N: usize = MOST_K + MOST_M;

// The most sectors that a disk can have.
pub const MOST_SECTORS: usize = 16777216;

// The bytes of a sector.
pub const SECTOR: usize = 512;

// Of each disk: the label's two sectors come first, then the log area, then the strips.
pub const FIRST_LOG: usize = 2;

pub const FIRST_STRIP: usize = 66;

// The bits of a mask of slots.
pub const MASK_BITS: usize = 64;
