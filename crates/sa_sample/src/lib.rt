//! Samples: scripts that are made from a number alone, for trying the program without a script at hand.
//!
//! A sample declares four descriptors with an array of 64 strings and one of 64 numbers each, and has eight
//! tasks of 64 calls. Which calls these are a linear congruential generator of small period draws, so that
//! the same number gives the same script anywhere.
#![tactic(auto)]

mod drawing;
mod law;
mod making;

pub use law::samples_are_scripts;
pub use making::sample;

#[cfg(test)]
mod tests;
