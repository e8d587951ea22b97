//! One call on a world: what it takes of its descriptors, what comes of it, and what its results make of
//! them; and a run's acts with the stores and plain arrays that they leave.
//!
//! The definitions are a list machine: a world gives each descriptor the items of its strings arrays, its
//! plain arrays and a layout. The program holds the layouts, in stores, and the plain arrays; that these show
//! the machine's items, call by call, is proved here.
#![tactic(auto)]

mod act;
mod call_homes;
mod deed;
mod gathered;
mod gathering;
mod last_read;
mod laws;
mod listed;
mod locked;
mod opening;
mod performing;
mod picture;
mod places;
mod plain_taking;
mod room;
mod rooms;
mod run;
mod taking;
mod writing;

pub use act::{Act, WeightList};
pub use call_homes::homes;
pub use gathered::Gathered;
pub use last_read::{LastRead, LastReads};
pub use laws::{calls_leave_rest, layouts_show_items, one_history, one_order, parts_tell_weights};
pub use listed::Listed;
pub use locked::{perform, perform_call};
pub use places::index_at_home;
pub use room::Room;
pub use rooms::Rooms;
pub use run::{Opened, open_run};
pub use taking::take;
pub use writing::plan_results;

#[cfg(test)]
mod tests;
