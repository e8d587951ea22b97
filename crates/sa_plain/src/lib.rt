//! Plain arrays, and items of arrays: lists of one kind, lists of such lists, and how a list is written.
#![tactic(auto)]

mod cells;
mod grid;
mod hex;
mod items;
mod kind;
mod plain;
mod puts;
mod rows;
mod spreads;
mod written;

pub use hex::push_hex;
pub use items::{ByteList, ByteLists, FlagList, IntList, Items, ItemsList, UnitList, UnitLists};
pub use kind::PlainKind;
pub use plain::Plain;
pub use rows::Rows;
pub use sa_text::ValueList;
pub use written::push_items;

#[cfg(test)]
mod tests;
