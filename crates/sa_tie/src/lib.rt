//! Ties: two lists of keys that never part. A tie has two ends that different threads may hold, each
//! with its own list. Whoever has both ends knows that their lists are equal.
#![tactic(auto)]

mod ends;
mod exchange;
mod plays;
mod rule;
mod steps;
mod view;

pub use ends::{Far, Near, meet, pull, tie};

#[cfg(test)]
mod tests;
