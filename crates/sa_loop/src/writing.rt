ghost use Rattle.std.specs.Prelude.{◌≡◌, true, IfOk, OnOk, OnErr};
ghost use Rattle.sa_alloc.specs.Layouts.{IsSound};
ghost use Rattle.sa_plain.specs.Items.{count_of};
ghost use Rattle.sa_call.specs.Decls.{kind_of};
ghost use Rattle.sa_call.specs.Kinds.{fits_kind};
ghost use Rattle.sa_hall.specs.Changes.{writes_by, CanChange};
ghost use Rattle.sa_hall.specs.Contents.{after_writes};
ghost use Rattle.sa_loop.specs.Held.{IsViewIn};
ghost use Rattle.sa_loop.specs.Runs.{room_holds, room_keeps};
ghost use Rattle.sa_loop.specs.Writes.{puts_told};

use crate::places::{index_at_home, places};
use crate::room::Room;
use sa_base::Memory;
use sa_call::{Decls, Items, View, is_strings_array};
use sa_hall::{Change, IndexList, carry_out};
use std::alloc::Global;

/// The change that puts results into the room of the output's home, with all memory that it needs. What the
/// room holds is as before.
pub fn plan_results(
    alloc: Global,
    decls: &Decls,
    room: &mut Room,
    out: &View,
    results: &Items,
) -> Result<Change, Memory>
    requires output { IsViewIn decls.now out.now (room_holds room.old) }
    requires many { count_of results.now ≡ out.now.count }
    requires fits { fits_kind (kind_of decls.now out.now.array) results.now ≡ true }
    ensures sound { IsSound (room_holds room.old).layout }
    ensures kept { room_keeps room.new ≡ room_keeps room.old }
    ensures writes { IfOk result (λ change. writes_by change ≡ puts_told decls.now out.now results.now) }
    ensures can { IfOk result (λ change. CanChange (room_holds room.new) room.new.store.room change) }
{
    let _sound = room.store.lengths();
    let places = places(alloc, out)?;
    let array = index_at_home(decls, out.array);
    if !is_strings_array(decls, out.array) {
        let items = results.copy(alloc)?;
        return Ok(Change::Plains(array, IndexList::from_vec(places), items));
    }
    let Items::Values(values) = results else {
        unreachable!()
    };
    let plan = room
        .store
        .plan(alloc, array, places.as_slice(), values.as_slice())?;
    Ok(Change::Strings(plan))
}

/// Puts results into the room of the output's home, at the output's places, in order. After a want of
/// memory what the room holds is as before.
pub fn put_results(
    alloc: Global,
    decls: &Decls,
    room: &mut Room,
    out: &View,
    results: &Items,
) -> Result<(), Memory>
    requires output { IsViewIn decls.now out.now (room_holds room.old) }
    requires many { count_of results.now ≡ out.now.count }
    requires fits { fits_kind (kind_of decls.now out.now.array) results.now ≡ true }
    ensures sound { IsSound (room_holds room.old).layout }
    ensures written { OnOk result (room_holds room.new ≡ after_writes (room_holds room.old) (puts_told decls.now out.now results.now)) }
    ensures kept { OnErr result (room_keeps room.new ≡ room_keeps room.old) }
{
    let change = plan_results(alloc, decls, room, out, results)?;
    carry_out(&mut room.store, &mut room.plains, change);
    Ok(())
}
