//! The listed cases of the crate `block`: each function answers whether a line holds, that is, whether the library answers
//! what the line expects. The lists and their form are the oracle's (oracle/lists/FORMAT.md).
#![tactic(auto)]

mod cases;
pub mod rooms;

pub use cases::{block_holds, body_holds, firsts_hold};
