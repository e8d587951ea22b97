//! A line of the journal.
use crate::deed::Deed;

/// A deed with its number: its place in the journal, from 0.
#[derive(Drop)]
pub struct Line<D: Deed> {
    pub number: u64,
    pub deed: D,
}
