//! The listed cases of the crate `itemset`: closures and gotos.
#![tactic(auto)]

mod cases;

pub use cases::closure_holds;
