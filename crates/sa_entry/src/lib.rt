//! The sixteen-byte slot of an entry, as NumPy's packed strings have it: the text itself, or where it
//! lies. Each slot is one spelling of its form; nothing here takes memory.
#![tactic(auto)]

mod entry;
mod form;

pub use entry::Entry;
pub use form::Form;

#[cfg(test)]
mod tests;
