// The numbers of this crate, each named once for the code. The contracts have the same names in specs/Limits.antt, and no
// proof holds where the two differ.

// More stages than any request has.
pub const MOST_STAGES: usize = 14;
