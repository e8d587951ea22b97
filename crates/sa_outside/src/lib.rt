//! Texts outside the arena, under keys that the crate `slab` picks. Only `reserve` takes memory.
#![tactic(auto)]

mod outside;

pub use outside::Outside;

#[cfg(test)]
mod tests;
