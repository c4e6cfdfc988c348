//! The shift-reduce machine.
#![tactic(auto)]

mod answers;
mod call;
mod ends;
pub mod limits;
mod moves;
mod tables;

pub use answers::{Run, Step, StepRefusal};
pub use call::run;
pub use ends::{Ended, How, RunRefusal, Stop};
pub use moves::step;
pub use tables::Tables;
