ghost use Rattle.std.specs.Prelude.{ℕ, ◌≡◌, ◌+◌, ◌*◌, ◌≤◌, ◌<◌, ◌^◌, length, map, sum, sum_by, true, IfOk, None};
ghost use Rattle.sa_text.specs.Values.{weight_of};
ghost use Rattle.sa_plain.specs.Items.{item_weight, items_of};
ghost use Rattle.sa_call.specs.Decls.{home_of, is_strings_array, kind_of};
ghost use Rattle.sa_call.specs.Forms.{descr_of};
ghost use Rattle.sa_call.specs.Kinds.{fits_kind, lists_fit};
ghost use Rattle.sa_call.specs.Parts.{literal_weight};
ghost use Rattle.sa_loop.specs.Held.{CanTake, IsStringsIn, IsHeldView, AreHeld, AreShort, IsTaken};
ghost use Rattle.sa_loop.specs.LastReads.{AreKnown};
ghost use Rattle.sa_loop.specs.Runs.{shown, values_in, world_of};
ghost use Rattle.sa_loop.specs.States.{view_items, view_values};
ghost use Rattle.sa_loop.specs.Takes.{weight_taken, weights_in, views_taken};

use crate::act::WeightList;
use crate::last_read::{LastRead, LastReads, last_list, place};
use crate::picture::take_whole;
use crate::places::{index_at_home, is_named, places};
use crate::plain_taking::{plain_list, plain_weight};
use crate::rooms::Rooms;
use sa_alloc::Store;
use sa_base::Memory;
use sa_call::{
    Call, Decls, Items, ItemsList, MOST_WEIGHT, Operand, Operands, ValueList, View, home_of,
    is_strings_array,
};
use std::alloc::Global;

/// Reads what a call takes of its descriptors. All is weighed first, by the slots alone; what weighs too
/// much is not read, and the answer then has its weights, a number for each of the descriptors. A view
/// that of a strings array that is the last that was read or written of it is not read again: its list is
/// shared.
pub fn take<R: Rooms>(
    alloc: Global,
    decls: &Decls,
    rooms: &R,
    call: &Call,
    lasts: &mut LastReads,
) -> Result<(Operands, WeightList), Memory>
    requires can { CanTake decls.now (R.has rooms.now) (R.holds rooms.now) call.now }
    requires known { AreKnown decls.now (world_of (R.holds rooms.now)) lasts.old.items }
    ensures taken { IfOk result (λ t. IsTaken decls.now (R.holds rooms.now) call.now t.0 t.1) }
    ensures known { AreKnown decls.now (world_of (R.holds rooms.now)) lasts.new.items }
{
    match call.op.descr() {
        None => take_items(alloc, decls, rooms, call, lasts),
        Some(number) => take_whole(alloc, rooms.store(number), call.op),
    }
}

/// Reads the items of a call's views, or what they weigh.
fn take_items<R: Rooms>(
    alloc: Global,
    decls: &Decls,
    rooms: &R,
    call: &Call,
    lasts: &mut LastReads,
) -> Result<(Operands, WeightList), Memory>
    requires can { CanTake decls.now (R.has rooms.now) (R.holds rooms.now) call.now }
    requires items { descr_of call.now.op ≡ None }
    requires known { AreKnown decls.now (world_of (R.holds rooms.now)) lasts.old.items }
    ensures taken { IfOk result (λ t. IsTaken decls.now (R.holds rooms.now) call.now t.0 t.1) }
    ensures known { AreKnown decls.now (world_of (R.holds rooms.now)) lasts.new.items }
{
    let operands = call.operands.as_slice();
    let (weights, read_weight) = weights(alloc, decls, rooms, call, lasts.as_slice())?;
    let weight = read_weight + literals_weight(operands);
    if weight > MOST_WEIGHT {
        return Ok((Operands::Big(weight), weights));
    }
    let lists = views(alloc, decls, rooms, operands, lasts)?;
    Ok((Operands::Items(lists), WeightList::new(alloc)))
}

/// What is taken of each of a call's descriptors weighs, in their order, and all of it together.
fn weights<R: Rooms>(
    alloc: Global,
    decls: &Decls,
    rooms: &R,
    call: &Call,
    lasts: &[Option<LastRead>],
) -> Result<(WeightList, u64), Memory>
    requires can { CanTake decls.now (R.has rooms.now) (R.holds rooms.now) call.now }
    requires items { descr_of call.now.op ≡ None }
    requires known { AreKnown decls.now (world_of (R.holds rooms.now)) lasts.now }
    ensures weights { IfOk result (λ r. r.0 ≡ weights_in decls.now (world_of (R.holds rooms.now)) call.now) }
    ensures sum { IfOk result (λ r. r.1 ≡ sum r.0) }
    ensures most { IfOk result (λ r. r.1 < 2 ^ 40) }
{
    let mut weights = WeightList::new(alloc);
    let mut together = 0u64;
    for number in 0..decls.descrs().len() {
        if is_named(decls, call, number as u8) {
            let operands = call.operands.as_slice();
            let weight = weight_at(alloc, decls, rooms, operands, number as u8, lasts)?;
            together += weight;
            weights.push(weight)?;
        }
    }
    Ok((weights, together))
}

/// What the views of the operands on arrays of one descriptor weigh.
fn weight_at<R: Rooms>(
    alloc: Global,
    decls: &Decls,
    rooms: &R,
    operands: &[Operand],
    number: u8,
    lasts: &[Option<LastRead>],
) -> Result<u64, Memory>
    requires held { AreHeld decls.now (R.has rooms.now) (R.holds rooms.now) operands.now }
    requires few { length operands.now ≤ 8 }
    requires known { AreKnown decls.now (world_of (R.holds rooms.now)) lasts.now }
    ensures weight { IfOk result (λ w. w ≡ weight_taken decls.now (shown (R.holds rooms.now number)) number operands.now) }
    ensures most { IfOk result (λ w. w ≤ 65552 * 8192 * length operands.now) }
{
    let mut weight = 0u64;
    for operand in operands {
        match operand {
            Operand::View(view) => {
                if home_of(decls, view.array) == number {
                    weight += view_weight(alloc, decls, rooms, view, lasts)?;
                }
            }
            Operand::Literal(_) => {}
        }
    }
    Ok(weight)
}

/// What the items of a view weigh. None of them is read.
fn view_weight<R: Rooms>(
    alloc: Global,
    decls: &Decls,
    rooms: &R,
    view: &View,
    lasts: &[Option<LastRead>],
) -> Result<u64, Memory>
    requires held { IsHeldView decls.now (R.has rooms.now) (R.holds rooms.now) view.now }
    requires known { AreKnown decls.now (world_of (R.holds rooms.now)) lasts.now }
    ensures weight { IfOk result (λ w. w ≡ sum_by item_weight (view_items decls.now (shown (R.holds rooms.now (home_of decls.now view.now.array))) view.now)) }
    ensures most { IfOk result (λ w. w ≤ 65552 * 8192) }
{
    if is_strings_array(decls, view.array) {
        strings_weight(alloc, decls, rooms, view, lasts)
    } else {
        let home = home_of(decls, view.array);
        plain_weight(alloc, decls, rooms.plains(home), view)
    }
}

/// What the values of a view of a strings array weigh, by what was last read, or else by their slots.
fn strings_weight<R: Rooms>(
    alloc: Global,
    decls: &Decls,
    rooms: &R,
    view: &View,
    lasts: &[Option<LastRead>],
) -> Result<u64, Memory>
    requires held { IsHeldView decls.now (R.has rooms.now) (R.holds rooms.now) view.now }
    requires strings { is_strings_array decls.now view.now.array ≡ true }
    requires known { AreKnown decls.now (world_of (R.holds rooms.now)) lasts.now }
    ensures weight { IfOk result (λ w. w ≡ weight_of (view_values decls.now (shown (R.holds rooms.now (home_of decls.now view.now.array))) view.now)) }
    ensures most { IfOk result (λ w. w ≤ 65552 * 8192) }
{
    match last_list(lasts, view) {
        Some(list) => Ok(list.weight()),
        None => weight_in(alloc, decls, rooms.store(home_of(decls, view.array)), view),
    }
}

/// What the values of a view weigh by their slots, whose home's store this is.
fn weight_in(alloc: Global, decls: &Decls, store: &Store, view: &View) -> Result<u64, Memory>
    requires { IsStringsIn decls.now view.now store.now.contents.layout }
    ensures weight { IfOk result (λ w. w ≡ weight_of (values_in decls.now store.now.contents.layout view.now)) }
    ensures most { IfOk result (λ w. w ≤ 65552 * 8192) }
{
    let places = places(alloc, view)?;
    let index = index_at_home(decls, view.array);
    Ok(store.weight(index, places.as_slice()))
}

/// What the literals among the operands weigh.
fn literals_weight(operands: &[Operand]) -> u64
    requires { AreShort operands.now }
    ensures weight { result ≡ sum_by literal_weight operands.now }
    ensures most { result < 2 ^ 40 }
{
    let mut weight = 0u64;
    for operand in operands {
        match operand {
            Operand::View(_) => {}
            Operand::Literal(items) => weight += items.weight(),
        }
    }
    weight
}

/// The items of each view of the operands, in order.
fn views<R: Rooms>(
    alloc: Global,
    decls: &Decls,
    rooms: &R,
    operands: &[Operand],
    lasts: &mut LastReads,
) -> Result<ItemsList, Memory>
    requires held { AreHeld decls.now (R.has rooms.now) (R.holds rooms.now) operands.now }
    requires known { AreKnown decls.now (world_of (R.holds rooms.now)) lasts.old.items }
    ensures lists { IfOk result (λ lists. map items_of lists ≡ views_taken decls.now (world_of (R.holds rooms.now)) operands.now) }
    ensures fit { IfOk result (λ lists. lists_fit decls.now operands.now lists ≡ true) }
    ensures known { AreKnown decls.now (world_of (R.holds rooms.now)) lasts.new.items }
{
    let mut lists = ItemsList::new(alloc);
    for operand in operands {
        match operand {
            Operand::View(view) => lists.push(view_list(alloc, decls, rooms, view, lasts)?)?,
            Operand::Literal(_) => {}
        }
    }
    Ok(lists)
}

/// The items of a view: of a strings array those that were last read of it, or read now and known from then
/// on; of a plain array those that are there.
fn view_list<R: Rooms>(
    alloc: Global,
    decls: &Decls,
    rooms: &R,
    view: &View,
    lasts: &mut LastReads,
) -> Result<Items, Memory>
    requires held { IsHeldView decls.now (R.has rooms.now) (R.holds rooms.now) view.now }
    requires known { AreKnown decls.now (world_of (R.holds rooms.now)) lasts.old.items }
    ensures list { IfOk result (λ items. items_of items ≡ view_items decls.now (shown (R.holds rooms.now (home_of decls.now view.now.array))) view.now) }
    ensures fits { IfOk result (λ items. fits_kind (kind_of decls.now view.now.array) items ≡ true) }
    ensures known { AreKnown decls.now (world_of (R.holds rooms.now)) lasts.new.items }
{
    if is_strings_array(decls, view.array) {
        let list = strings_list(alloc, decls, rooms, view, lasts)?;
        Ok(Items::Values(list))
    } else {
        let home = home_of(decls, view.array);
        plain_list(alloc, decls, rooms.plains(home), view)
    }
}

/// The values of a view of a strings array: those that were last read of it, or read now and known from then
/// on.
fn strings_list<R: Rooms>(
    alloc: Global,
    decls: &Decls,
    rooms: &R,
    view: &View,
    lasts: &mut LastReads,
) -> Result<ValueList, Memory>
    requires held { IsHeldView decls.now (R.has rooms.now) (R.holds rooms.now) view.now }
    requires strings { is_strings_array decls.now view.now.array ≡ true }
    requires known { AreKnown decls.now (world_of (R.holds rooms.now)) lasts.old.items }
    ensures list { IfOk result (λ list. list ≡ view_values decls.now (shown (R.holds rooms.now (home_of decls.now view.now.array))) view.now) }
    ensures known { AreKnown decls.now (world_of (R.holds rooms.now)) lasts.new.items }
{
    if let Some(list) = last_list(lasts.as_slice(), view) {
        return list.copy(alloc);
    }
    let list = list_in(alloc, decls, rooms.store(home_of(decls, view.array)), view)?;
    let copy = list.copy(alloc)?;
    place(
        lasts,
        view.array,
        Some(LastRead {
            view: *view,
            list: copy,
        }),
    );
    Ok(list)
}

/// The values of a view, whose home's store this is: copied once, and shared from then on.
fn list_in(alloc: Global, decls: &Decls, store: &Store, view: &View) -> Result<ValueList, Memory>
    requires { IsStringsIn decls.now view.now store.now.contents.layout }
    ensures { IfOk result (λ list. list ≡ values_in decls.now store.now.contents.layout view.now) }
{
    let places = places(alloc, view)?;
    let index = index_at_home(decls, view.array);
    let values = store.values(alloc, index, places.as_slice())?;
    let mut list = ValueList::from_vec(values);
    list.share(alloc)?;
    Ok(list)
}
