//! What a caller may name at most, and the words of a record; specs/Limits.antt has the same names.

/// Most records that a list may have room for.
pub const RECORDS: usize = 65536;

/// Words of a reduce/reduce record: token, smaller production, other production, state.
pub const RR: usize = 4;

/// Words of a shift/reduce record: token, production, state.
pub const SR: usize = 3;
