//! The entry points, each with its answer in words; the crate timkerzal_c exports them for C and Rust.
#![tactic(auto)]

// stays: the C interface. The buffers are lent one by one and an answer is a lent array of words, for C calls these so.
// stays: what may not change. docs/API.md names these fifteen functions for callers in Rattle, and a library is no static
// library, so timkerzal_c has the same clauses once more.

mod calls;
mod queries;
mod words;

pub use calls::{timkerzal_build, timkerzal_check, timkerzal_graph, timkerzal_run};
pub use queries::{
    timkerzal_action, timkerzal_body_length, timkerzal_body_refusal, timkerzal_body_symbol,
    timkerzal_cell, timkerzal_core, timkerzal_edge, timkerzal_goto, timkerzal_offered,
    timkerzal_only, timkerzal_shift,
};
pub use words::{ACTS, BUILT, FOUND, GRAPHED, RAN};
