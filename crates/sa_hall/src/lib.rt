//! What is held under locks: the descriptors' stores, plain arrays and chains, each under a lock of its
//! own.
#![tactic(auto)]

mod change;
mod domain;
mod guarded;
mod guards;
mod hall;
mod held;
mod lending;
mod lent;
mod locking;
mod pass;
mod quiet;
mod slots;
mod work;

pub use change::{Change, carry_out};
pub use domain::{Domain, opening_plains};
pub use hall::Hall;
pub use held::Held;
pub use lent::Lent;
pub use locking::plan_locks;
pub use pass::Pass;
pub use quiet::Quiet;
pub use work::{IndexList, Work};

#[cfg(test)]
mod tests;
