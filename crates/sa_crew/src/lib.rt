//! Work dealt out to threads: a job for each of some things, by so many workers. Worker `w` has the things
//! whose place modulo the number of workers is `w`, and does its job for each, in rising order. What comes
//! of a thing takes its place.
#![tactic(auto)]

mod job;
mod shares;
mod work;

pub use job::Job;
pub use work::work_all;

#[cfg(test)]
mod tests;
