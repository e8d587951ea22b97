ghost use Rattle.std.specs.Prelude.{◌≡◌, IfOk, is_some, true};
ghost use Rattle.sa_call.specs.Forms.{descr_of, entry};
ghost use Rattle.sa_call.specs.declared.form.Gives.TheVariants as gives;
ghost use Rattle.sa_loop.specs.Held.{IsTakenWhole};

use crate::act::WeightList;
use sa_alloc::Store;
use sa_base::Memory;
use sa_call::{ByteList, EntryList, Gives, MOST_WEIGHT, Op, Operands, Picture};
use std::alloc::Global;

/// The statistics or the picture of a store, by what the call gives; or the weight of a picture that
/// weighs too much.
pub fn take_whole(alloc: Global, store: &Store, op: Op) -> Result<(Operands, WeightList), Memory>
    requires { is_some (descr_of op) ≡ true }
    ensures { IfOk result (λ t. IsTakenWhole (entry op).gives store.now.contents.layout t.0 t.1) }
{
    match op.form().gives {
        Gives::Picture => take_picture(alloc, store),
        _ => Ok((Operands::Stats(store.stats()), WeightList::new(alloc))),
    }
}

/// The picture of a store, or its weight where it weighs too much.
fn take_picture(alloc: Global, store: &Store) -> Result<(Operands, WeightList), Memory>
    ensures { IfOk result (λ t. IsTakenWhole gives.Picture store.now.contents.layout t.0 t.1) }
{
    let arena = store.image_arena();
    let weight = 16 * store.count() as u64 + arena.len() as u64;
    let mut weights = WeightList::new(alloc);
    if weight > MOST_WEIGHT {
        weights.push(weight)?;
        return Ok((Operands::Big(weight), weights));
    }
    let picture = Picture {
        entries: EntryList::from_vec(store.image_entries(alloc)?),
        arena: ByteList::from_slice(alloc, arena)?,
    };
    Ok((Operands::Picture(picture), weights))
}
