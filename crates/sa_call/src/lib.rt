//! Calls: what they work on, the table of what each takes, gives and computes, and what comes of one.
//!
//! A call is an entry of one table (`Op::form`, and the definition `entry`): its word in a script, the
//! sorts of its operands, where its output stands, what it gives, and how it treats missing values. The
//! validity of a call, the lists that it reads and the first element that is refused are each written
//! once over an entry. `evaluate` answers what the definition `decide` gives for what was read.
#![tactic(auto)]

mod call;
mod cell;
mod columns;
mod decls;
mod element;
mod evaluating;
mod form;
mod laws;
mod operands;
mod refusals;
mod reply;
mod results;
mod row;
mod rules;
mod walking;

pub use call::{Call, CallList, Op, Operand, OperandList, TaskList};
pub use decls::{ArrayDecl, Decls, Kind};
pub use evaluating::evaluate;
pub use form::{Form, Gives, Into, Results, Sort};
pub use laws::parts_decide;
pub use operands::{EntryList, Operands, Picture};
pub use refusals::MOST_WEIGHT;
pub use reply::{Outcome, Refusal, Reply};
pub use rules::{home_of, homes_in, is_strings_array, kind_of};
pub use sa_plain::{ByteList, IntList, Items, ItemsList, PlainKind};
pub use sa_text::ValueList;
pub use sa_view::View;

#[cfg(test)]
mod tests;
