//! The arena of one descriptor: extents in order of creation, whose last one is live, in one buffer.
//!
//! An extent is its prefix, which is its capacity as one byte or one word, its text, and zeros up to
//! the capacity; a dead one is zeros. Beside the buffer stands a table with a member for each extent,
//! in order. Offsets rise along it, so an extent is found from its text's offset by a search by
//! halves. Only `reserve` takes memory, for the buffer and for the table: an extent has at least 17
//! bytes, so the table has a place for each 17 bytes of the buffer, and no more than one beside them.
#![tactic(auto)]

mod arena;
mod buffer;
mod laws;

pub use arena::Arena;
pub use buffer::prefix_len;
pub use laws::{cursor_is_live_and_dead, extents_share_no_byte, offsets_tell_extents};

#[cfg(test)]
mod tests;
