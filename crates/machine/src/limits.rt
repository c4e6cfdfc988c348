//! What a caller may ask of a run at most; specs/Limits.antt has the same names.

/// Most tokens of an input.
pub const INPUT: usize = 4096;

/// Most steps.
pub const STEPS: usize = 1000000;
