//! Replays a list of cases from standard input: each line is one case, and every word that it expects is compared with
//! what the library answers. The lists and their form are the oracle's (oracle/lists/FORMAT.md).
#![tactic(auto)]

// stays: what may not change. There is a program for each list and each damaged one (docs/DECISIONS.md, 32): each is one call of
// `replay`, and its standard input and output are compared by the gate.

mod lines;
mod lists;

pub use lines::{Tally, count_cases, replay};
pub use lists::{List, holds};
