//! What the types behind the locks of one run have in common.
use std::marker::Brand;

/// What one run stands on: the roll of its lines, the shapes of its descriptors, how many tasks it has,
/// and the ties of its parties, descriptors first. A type that lies behind a lock is known by its type
/// alone, so it takes this as a parameter.
pub trait Binding {
    ghost use Rattle.std.specs.Prelude.{ℕ, List};
    ghost use Rattle.boxcar.specs.Table.{Shelves};
    ghost use Rattle.sa_tie.specs.Seated.{TableId};
    ghost use Rattle.sa_journal.specs.Shapes.{Shape};

    ghost roll: { Shelves };

    ghost shapes: { List Shape };

    ghost tasks: { ℕ };

    ghost ties: { List TableId };
}

/// A binding whose meanings are picked where it is named.
impl Binding for Brand {
    ghost use Rattle.std.specs.Prelude.{[]};

    ghost roll = { record {
      tag = [];
      buckets = [];
    } };

    ghost shapes = { [] };

    ghost tasks = { 0 };

    ghost ties = { [] };
}
