//! Lines, tokens, quoted texts and numbers, as they stand in a script and in a report.
#![tactic(auto)]

mod bytes;
mod laws;
mod line;
mod number;
mod quote;
mod token;

pub use bytes::{first, is_word};
pub use laws::{
    decimal_again, lines_again, numbered_again, quoted_again, strict_again, tokens_again,
};
pub use line::{cut_line, is_skipped};
pub use number::{number_of, push_decimal};
pub use quote::{plain_at, push_quoted, quoted_at};
pub use token::next_token;

#[cfg(test)]
mod tests;
