//! Texts and values. A text is UTF-8 of at most 65,536 bytes, and contracts see it as the list of its
//! code points; a value is missing or a text. Places in a text are told in bytes and in code points, and
//! a text is made of others by a builder.
#![tactic(auto)]

mod edit_error;
mod place;
mod points;
mod search_law;
mod space;
mod stretched;
mod text;
mod text_builder;
mod text_error;
mod text_points;
mod value;
mod value_list;
mod weight;

pub use edit_error::EditError;
pub use points::{count_leads, first_point, last_point, offset_of, split_points};
pub use search_law::searches_bytes;
pub use space::is_space;
pub use stretched::{stretched_at, stretched_len};
pub use text::Text;
pub use text_builder::TextBuilder;
pub use text_error::TextError;
pub use value::Value;
pub use value_list::ValueList;
pub use weight::{value_weight, values_weight};

#[cfg(test)]
mod point_tests;
#[cfg(test)]
mod tests;
