//! The ties of a new journal.
use sa_base::Sequence;
use sa_tie::{Far, Near};

/// The two ends of a tie.
#[derive(Drop)]
pub struct Tie {
    pub near: Near,
    pub far: Far,
}

/// Ties, in order.
pub type TieList = Sequence<Tie>;
