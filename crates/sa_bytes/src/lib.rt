//! Bytes that never change and cost little to hold: a few stand inside the value, more are a part of a
//! block that all copies share, which are counted. Many values can be parts of one block. Contracts see
//! the list of bytes, and nothing of where they stand.
#![tactic(auto)]

mod block;
mod shared_bytes;

pub use block::Block;
pub use shared_bytes::SharedBytes;

#[cfg(test)]
mod tests;
