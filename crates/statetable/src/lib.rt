//! Cells, gotos, conflict lists and marks of a graph, and the whole build (statetable.rs).
#![tactic(auto)]

mod call;
mod cell;
mod derive;
mod fill;
pub mod limits;
mod marks;
mod queries;
mod records;
mod refusal;
mod states;
mod verdict;

pub use call::{Counts, Named, build};
pub use cell::Action;
pub use queries::{
    QueryRefusal, action, cell_word, core_mark, edge, goto_word, offered, only_mark, shift_mark,
};
pub use refusal::BuildRefusal;
