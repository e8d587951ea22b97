//! Texts compared and told apart: their order, and whether each code point of a text is a letter, a decimal
//! digit, a letter or a number, or a space. Contracts speak of code points; the order is told by UTF-8, of
//! which a law says that it is ordered alike. No call takes memory. The general categories are those of the
//! crate `unicode`, whose version `bench/categories.py` compares with that of a Python.
#![tactic(auto)]

mod classes;
mod order;
mod predicates;

pub use order::{bytes_order_texts, compare};
pub use predicates::{is_alnum, is_alpha, is_decimal, is_space};

#[cfg(test)]
mod tests;
