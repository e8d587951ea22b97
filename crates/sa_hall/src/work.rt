//! The work of a call under its locks.
ghost use Rattle.std.specs.Prelude.{◌≡◌, ◌==◌, if◌then◌else◌};
ghost use Rattle.sa_hall.specs.declared.change.Change.TheVariants.{Nothing};
ghost use Rattle.sa_hall.specs.Changes.{change_at};

use crate::change::Change;
use sa_alloc::{Plan, Store};
use sa_base::Sequence;
use sa_plain::Items;

/// Places of an array, in order.
pub type IndexList = Sequence<u32>;

/// What a call writes, to one descriptor of those that it holds: nothing; a plan of its store; items at
/// places of one of its plain arrays; or a tidied store in place of its own.
#[derive(Drop)]
pub enum Work {
    Nothing,
    Strings {
        number: u8,
        plan: Plan,
    },
    Plains {
        number: u8,
        array: u32,
        places: IndexList,
        items: Items,
    },
    Tidied {
        number: u8,
        store: Store,
    },
}

/// A change for each lock.
pub(crate) type Changes = (
    Change,
    Change,
    Change,
    Change,
    Change,
    Change,
    Change,
    Change,
);

/// The change that work makes under each lock.
pub(crate) fn changes(work: Work) -> Changes
    ensures { (result.0 ≡ change_at work 0) × (result.1 ≡ change_at work 1) × (result.2 ≡ change_at work 2) × (result.3 ≡ change_at work 3) × (result.4 ≡ change_at work 4) × (result.5 ≡ change_at work 5) × (result.6 ≡ change_at work 6) × (result.7 ≡ change_at work 7) }
{
    match work {
        Work::Nothing => nowhere(),
        Work::Strings { number, plan } => only_at(number, Change::Strings(plan)),
        Work::Plains {
            number,
            array,
            places,
            items,
        } => only_at(number, Change::Plains(array, places, items)),
        Work::Tidied { number, store } => only_at(number, Change::Tidied(store)),
    }
}

/// No change.
fn nowhere() -> Changes
    ensures { (result.0 ≡ Nothing) × (result.1 ≡ Nothing) × (result.2 ≡ Nothing) × (result.3 ≡ Nothing) × (result.4 ≡ Nothing) × (result.5 ≡ Nothing) × (result.6 ≡ Nothing) × (result.7 ≡ Nothing) }
{
    (
        Change::Nothing,
        Change::Nothing,
        Change::Nothing,
        Change::Nothing,
        Change::Nothing,
        Change::Nothing,
        Change::Nothing,
        Change::Nothing,
    )
}

/// One change, under the lock of a number.
fn only_at(number: u8, change: Change) -> Changes
    ensures { (result.0 ≡ (if number == 0 then change else Nothing)) × (result.1 ≡ (if number == 1 then change else Nothing)) × (result.2 ≡ (if number == 2 then change else Nothing)) × (result.3 ≡ (if number == 3 then change else Nothing)) × (result.4 ≡ (if number == 4 then change else Nothing)) × (result.5 ≡ (if number == 5 then change else Nothing)) × (result.6 ≡ (if number == 6 then change else Nothing)) × (result.7 ≡ (if number == 7 then change else Nothing)) }
{
    let mut all = nowhere();
    match number {
        0 => all.0 = change,
        1 => all.1 = change,
        2 => all.2 = change,
        3 => all.3 = change,
        4 => all.4 = change,
        5 => all.5 = change,
        6 => all.6 = change,
        7 => all.7 = change,
        _ => (),
    }
    all
}
