//! The caller's limits, and the numbers of the graph made so far.

/// Most states, and most kernel items of all states.
#[derive(Clone, Copy, Debug, PartialEq, Eq)]
pub struct Room {
    pub states: usize,
    pub items: usize,
}

/// States and kernel items made.
#[derive(Clone, Copy, Debug, PartialEq, Eq)]
pub struct Count {
    pub states: usize,
    pub items: usize,
}
