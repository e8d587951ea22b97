//! Descriptors: how each treats missing values, how their rules combine, and what comes of an element
//! of a call in which a text is missing.
#![tactic(auto)]

mod combination;
mod descr;
mod missing;

pub use combination::{CombineError, combine, rule_of};
pub use descr::{Descr, NaRule};
pub use missing::{Miss, MissGroup, miss_of};

#[cfg(test)]
mod tests;
