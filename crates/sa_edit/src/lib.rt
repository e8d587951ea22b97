//! Texts made of others: put one after the other, repeated, set to a width, and stripped. Each call gives
//! the text that its definition names, by code points; one of more than 65,536 bytes is too long, which is
//! told before any memory is taken.
#![tactic(auto)]

mod ascii;
mod joins;
mod justifies;
mod padding;
mod strips;

pub use joins::{add, multiply};
pub use justifies::{center, ljust, rjust, zfill};
pub use strips::{lstrip, rstrip, strip};

#[cfg(test)]
mod tests;
