//! Closure and goto of a kernel.
#![tactic(auto)]

mod closure;
mod goto;
mod lay;
mod rows;

pub use closure::close;
pub use goto::{Sights, goto_kernel, sights_of};
pub use rows::rows_right;
