//! The listed cases of the crate `statetable`: builds and queries.
#![tactic(auto)]

mod builds;
mod queries;
mod tables;

pub use builds::build_holds;
pub use queries::query_holds;
