//! What a line changes in one descriptor.
ghost use Rattle.std.specs.Prelude.{◌≡◌};
ghost use Rattle.sa_hall.specs.Contents.{after_writes};
ghost use Rattle.sa_hall.specs.Changes.{contents_of, writes_by, CanChange};

use crate::work::IndexList;
use sa_alloc::{Plan, Store};
use sa_plain::{Items, Plain};

/// What is written to one descriptor: nothing; the puts of a plan; items at places of a plain array; or a
/// tidied store in place of its own.
#[derive(Drop)]
pub enum Change {
    Nothing,
    Strings(Plan),
    Plains(u32, IndexList, Items),
    Tidied(Store),
}

/// Carries out a change, which then is the writes that it tells. It takes no memory and cannot fail.
pub fn carry_out(store: &mut Store, plains: &mut Vec<Plain>, change: Change)
    requires { CanChange (contents_of store.old plains.old.items) store.old.room change }
    ensures { contents_of store.new plains.new.items ≡ after_writes (contents_of store.old plains.old.items) (writes_by change) }
{
    match change {
        Change::Nothing => (),
        Change::Strings(plan) => store.write(plan),
        Change::Plains(array, places, items) => {
            plains[array as usize].put_items(places.as_slice(), &items);
        }
        Change::Tidied(tidied) => *store = tidied,
    }
}
