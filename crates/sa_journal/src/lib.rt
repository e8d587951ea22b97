//! The journal: lines that many threads append to, one at a time, and for each descriptor and each
//! task the chain of the lines that name it. A chain is tied to the journal from the start, so the two
//! never part: whoever holds a chain and an open turn that has not linked it, or the ended journal,
//! knows that the chain is the journal's lines that name its party.
#![tactic(auto)]

mod binding;
mod chain;
mod deed;
mod ended;
mod journal;
mod line;
mod lines;
mod locks;
mod party;
mod roll;
mod tie;
mod turn;

pub use binding::Binding;
pub use chain::{Chain, ChainList};
pub use deed::Deed;
pub use ended::Ended;
pub use journal::Journal;
pub use line::Line;
pub use locks::Locks;
pub use party::Party;
pub use roll::Roll;
pub use tie::{Tie, TieList};
pub use turn::Turn;

#[cfg(test)]
mod tests;
