//! The runs of a script: its tasks one after another, on one thread; or on so many workers, each in a thread
//! of its own.
#![tactic(auto)]

mod crew;
mod gather;
mod serial;
mod tasks;
mod threaded;

pub use serial::run_serial;
pub use tasks::run_tasks;
pub use threaded::Threaded;

#[cfg(test)]
mod tests;
