//! The entry points, exported for C and Rust: a static library, out/libtimkerzal_c.a by `rt lib`; include/timkerzal.h declares them.
#![tactic(auto)]

// stays: the C interface. What crosses it are numbers, slices and arrays of words, so each export has its own parameters.

mod calls;
mod queries;
