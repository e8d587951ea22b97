//! Texts sought in others: where one stands first and last, whether another begins or ends with it, how
//! often it stands there, and that replaced by a third. Places are code points, counted as Python's `str`
//! does. Bytes are searched, and code points counted on the way: a text stands in another by bytes exactly
//! where it does by code points. No call takes memory but that which makes a text.
#![tactic(auto)]

mod counts;
mod cuts;
mod finds;
mod firsts;
mod replaces;
mod spreads;
mod window;

pub use counts::count;
pub use finds::{ends, find, index, rfind, rindex, starts};
pub use firsts::takes_first;
pub use replaces::replace;

#[cfg(test)]
mod replace_tests;
#[cfg(test)]
mod tests;
