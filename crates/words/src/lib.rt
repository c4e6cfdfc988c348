//! Decimal numbers in a text, with blanks between them, and lines of numbers: how grammars and lists of cases are read.
#![tactic(auto)]

mod parts;
mod scan;

pub use parts::{
    Word, begins, behind, behind_three, given, narrow, numbers_begin, part, same, split_part,
};
pub use scan::{Fault, index, next_line, next_word};
