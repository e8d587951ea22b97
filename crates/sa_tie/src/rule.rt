//! The rule of ties, and the table that keeps it.
use crate::view::View;
use atomic_table::{Seat, Shared, Table, TableRule};
use std::alloc::Global;

/// The rule of ties.
pub struct Rule;

impl TableRule<(), View, ()> for Rule {
    ghost use Rattle.sa_tie.specs.Rule.{Tied};
    ghost use Rattle.sa_tie.specs.Views.{both_ends};

    ghost holds = { λ _. Tied };

    ghost first = { λ _. both_ends };
}

/// The table of a tie: two words, which are the last keys of the near and of the far list.
pub type Row = Table<(), View, (), Rule, Global>;

/// An end of a tie, a note or a receipt.
pub type Place = Seat<(), View>;

/// What steps are taken on.
pub type Steps = Shared<(), View, (), Rule>;
