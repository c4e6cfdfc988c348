//! The listed cases of the crate `machine`: runs.
#![tactic(auto)]

mod cases;

pub use cases::run_holds;
