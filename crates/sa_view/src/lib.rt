//! Strided views of arrays: which places one names, whether they fit an array, Python's slices as views,
//! and the length of several counts. Nothing here takes memory.
#![tactic(auto)]

mod bounds;
mod counts;
mod laws;
mod steps;
mod view;

pub use counts::broadcast;
pub use laws::{fits_more, places_are_places, put_is_read, slice_fits};
pub use view::{View, overlap};

#[cfg(test)]
mod tests;
