//! The store of one descriptor: the slots of its entries, its arena and its texts outside, as one
//! layout. Each text lies where the table of transitions puts it, and every store is sound: each live
//! extent and each key in use is named by exactly one entry, texts are UTF-8, and a slot says what is
//! so.
//!
//! A write has two steps. A plan takes all memory: it copies the values, and reserves the bytes and
//! the keys that they need. The write then cannot fail.
//!
//! The entries of all arrays stand in one vector, array by array, and the store keeps the number of
//! each array's first entry. No call walks over the extents: one is found by halves, and a dead one at
//! the end is passed once, when it goes.
#![tactic(auto)]

mod laws;
mod needs;
mod plan;
mod seen;
mod store;
mod transition;
mod values;

pub use laws::{puts_keep_shape, puts_keep_sound, puts_set_one_value, tidies_keep_values};
pub use plan::Plan;
pub use seen::Seen;
pub use store::Store;

#[cfg(test)]
mod tests;
