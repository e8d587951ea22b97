//! The two ends of a tie, and what is done with them.
ghost use Rattle.std.specs.Prelude.{◌≡◌, ◌∷◌, ◌++◌, [], IfOk};

use crate::exchange::{carry, level};
use crate::rule::{Place, Row};
use crate::steps::part;
use sa_base::Memory;
use std::alloc::Global;
use std::marker::Model;
use std::sync::Arc;

/// The near end of a tie. Contracts see the tie and the end's keys, in order.
#[derive(Drop)]
pub struct Near {
    row: Arc<Row, Global>,
    seat: Place,
}

impl Model for Near {
    ghost use Rattle.std.specs.Arc.{arc_value};
    ghost use Rattle.sa_tie.specs.Ends.{End, end_of, IsNear};

    ghost Value = { End };

    ghost view = { λ near. end_of near.seat };

    ghost invariant = { λ near. IsNear (arc_value near.row).shared.table_id near.seat };
}

/// The far end of a tie. Contracts see the tie and the end's keys, in order.
#[derive(Drop)]
pub struct Far {
    row: Arc<Row, Global>,
    seat: Place,
}

impl Model for Far {
    ghost use Rattle.std.specs.Arc.{arc_value};
    ghost use Rattle.sa_tie.specs.Ends.{End, end_of, IsFar};

    ghost Value = { End };

    ghost view = { λ far. end_of far.seat };

    ghost invariant = { λ far. IsFar (arc_value far.row).shared.table_id far.seat };
}

/// The two ends of a new tie, each with no key. `Memory` can come where memory is refused.
pub fn tie(alloc: Global) -> Result<(Near, Far), Memory>
    ensures { IfOk result (λ ends. (ends.0.tie ≡ ends.1.tie) × (ends.0.keys ≡ []) × (ends.1.keys ≡ [])) }
{
    let (row, mut near) = Row::of_words(alloc, &[0, 0], &())?;
    let far = part(&row.shared, &mut near);
    let row = Arc::new(alloc, row)?;
    let again = Arc::try_clone(&row)?;
    Ok((
        Near { row, seat: near },
        Far {
            row: again,
            seat: far,
        },
    ))
}

/// Adds a key to both ends of a tie as their last one. It tells that their lists were equal. It takes no
/// memory and cannot be refused.
pub fn pull(near: &mut Near, far: &mut Far, key: u64)
    requires { near.old.tie ≡ far.old.tie }
    ensures equal { near.old.keys ≡ far.old.keys }
    ensures near { (near.new.tie ≡ near.old.tie) × (near.new.keys ≡ near.old.keys ++ key ∷ []) }
    ensures far { (far.new.tie ≡ far.old.tie) × (far.new.keys ≡ far.old.keys ++ key ∷ []) }
{
    let steps = &near.row.shared;
    level(steps, &mut near.seat, &mut far.seat);
    carry(steps, &mut near.seat, &mut far.seat, key);
}

/// Tells that the lists of a tie's two ends are equal, and leaves them as they are. It takes no memory
/// and cannot be refused.
pub fn meet(near: &mut Near, far: &mut Far)
    requires { near.old.tie ≡ far.old.tie }
    ensures equal { near.old.keys ≡ far.old.keys }
    ensures near { near.new ≡ near.old }
    ensures far { far.new ≡ far.old }
{
    level(&near.row.shared, &mut near.seat, &mut far.seat);
}
