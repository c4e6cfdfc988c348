//! The grammar block, token sets, nullable and FIRST.
#![tactic(auto)]

mod check;
mod grammar;
pub mod limits;
mod lookahead;
mod queries;
mod refusal;
mod set;
mod symbol;

pub use grammar::Grammar;
pub use lookahead::{Firsts, Lookahead};
pub use queries::{BodyRefusal, body, body_refusal};
pub use refusal::BlockRefusal;
pub use set::{TokenSet, Tokens};
pub use symbol::Symbol;
