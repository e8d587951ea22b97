//! Views of plain arrays: their items, and what these weigh.
ghost use Rattle.std.specs.Prelude.{◌≡◌, ◌≤◌, ◌<◌, ◌*◌, All, length, sum_by, true, IfOk};
ghost use Rattle.sa_plain.specs.Items.{item_weight, items_of};
ghost use Rattle.sa_plain.specs.Plains.{item_at, items_at};
ghost use Rattle.sa_call.specs.Decls.{kind_of};
ghost use Rattle.sa_call.specs.Kinds.{fits_kind};
ghost use Rattle.sa_call.specs.Told.{index_at_home};
ghost use Rattle.sa_hall.specs.Contents.{plain_at};
ghost use Rattle.sa_loop.specs.Held.{IsPlainIn};
ghost use Rattle.sa_view.specs.Views.{places_of};

use crate::places::{index_at_home, places};
use sa_base::Memory;
use sa_call::{Decls, Items, PlainKind, View};
use sa_plain::Plain;
use std::alloc::Global;

/// The items of a view of a plain array, of whose home these are the plain arrays.
pub(crate) fn plain_list(
    alloc: Global,
    decls: &Decls,
    plains: &[Plain],
    view: &View,
) -> Result<Items, Memory>
    requires { IsPlainIn decls.now view.now plains.now }
    ensures items { IfOk result (λ items. items_of items ≡ items_at (plain_at plains.now (index_at_home decls.now view.now.array)) (places_of view.now)) }
    ensures fits { IfOk result (λ items. fits_kind (kind_of decls.now view.now.array) items ≡ true) }
{
    let places = places(alloc, view)?;
    let index = index_at_home(decls, view.array);
    plains[index as usize].items_at(alloc, places.as_slice())
}

/// What the items of a view of a plain array weigh, of whose home these are the plain arrays. No list of them
/// is made.
pub(crate) fn plain_weight(
    alloc: Global,
    decls: &Decls,
    plains: &[Plain],
    view: &View,
) -> Result<u64, Memory>
    requires { IsPlainIn decls.now view.now plains.now }
    ensures weight { IfOk result (λ w. w ≡ sum_by item_weight (items_at (plain_at plains.now (index_at_home decls.now view.now.array)) (places_of view.now))) }
    ensures most { IfOk result (λ w. w ≤ 65552 * 8192) }
{
    let places = places(alloc, view)?;
    let index = index_at_home(decls, view.array);
    Ok(weight_of_places(&plains[index as usize], places.as_slice()))
}

/// What the items at places of a plain array weigh together.
fn weight_of_places(plain: &Plain, places: &[u32]) -> u64
    requires below { All (λ k. k < length plain.now.items) places.now }
    requires few { length places.now ≤ 8192 }
    ensures weight { result ≡ sum_by item_weight (items_at plain.now places.now) }
    ensures most { result ≤ 65552 * length places.now }
{
    let mut weight = 0u64;
    for place in places {
        weight += weight_at(plain, *place);
    }
    weight
}

/// What the item at a place of a plain array weighs.
fn weight_at(plain: &Plain, place: u32) -> u64
    requires { place < length plain.now.items }
    ensures weight { result ≡ item_weight (item_at plain.now place) }
    ensures most { result ≤ 65552 }
{
    match plain.kind() {
        PlainKind::Int => {
            plain.get_int(place);
            ITEM_WEIGHT
        }
        PlainKind::Bool => {
            plain.get_flag(place);
            ITEM_WEIGHT
        }
        PlainKind::Bytes(_) => ITEM_WEIGHT + plain.get_bytes(place).len() as u64,
        PlainKind::Fixed(_) => ITEM_WEIGHT + 4 * plain.get_units(place).len() as u64,
    }
}

/// What an item weighs beside its bytes or units.
const ITEM_WEIGHT: u64 = 16;
