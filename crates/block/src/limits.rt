//! Document 01's limits, each named once; specs/Limits.antt has the same names.

/// Words in a token set.
pub const WORDS: usize = 4;

/// Most tokens: the bits of a set.
pub const TOKENS: usize = 64 * WORDS;

/// Most rules.
pub const RULES: usize = 256;

/// Most productions.
pub const PRODS: usize = 512;

/// Most symbols on a right side.
pub const LENGTH: usize = 64;

/// Most symbols on all right sides.
pub const SYMBOLS: usize = 8192;

/// Highest level of a precedence.
pub const LEVEL: usize = 65535;

/// Words that head a block.
pub const HEADER: usize = 9;

/// Words of an item: itself and its context.
pub const ITEM: usize = 1 + WORDS;

/// An item is DOTS × production + dot.
pub const DOTS: usize = 128;
