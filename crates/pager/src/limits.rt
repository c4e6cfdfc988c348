//! What a caller may name at most; specs/Held.antt has the same names.

/// Most states.
pub const STATES: usize = 4096;

/// Most kernel items of all states.
pub const ITEMS: usize = 65536;
