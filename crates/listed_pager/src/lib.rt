//! The listed cases of the crate `pager`: graphs.
#![tactic(auto)]

mod cases;
mod work;

pub use cases::{graph_begins, graph_holds};
pub use work::{Work, lent, work_holds, work_of};
