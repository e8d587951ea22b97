//! Reports: what a run of a script did, as bytes.
//!
//! A report is made from the script and from what was gathered of a run: its history with marks, the
//! replies, and the stores that the history leaves. Final contents are written from where they lie. A
//! report's bytes name its history: `names_its_history` carries that law.
#![tactic(auto)]

mod contents;
mod law;
mod making;
mod picture;
mod summing;
mod tasks;
mod writing;

pub use law::names_its_history;
pub use making::{fault_line, report};
pub use summing::summary;

#[cfg(test)]
mod tests;
