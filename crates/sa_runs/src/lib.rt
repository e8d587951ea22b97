//! Runs of plain bytes: how many bytes at the front of a text stand for themselves between quotation
//! marks. They are looked at 32 at once.
#![tactic(auto)]

mod marks;
mod run;

pub use marks::is_plain;
pub use run::{cut_run, plain_len};

#[cfg(test)]
mod tests;
