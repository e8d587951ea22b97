//! Values of the tests, and a store of them.
ghost use Rattle.std.specs.Prelude.{◌≡◌, ◌∷◌, [], replicate, Some, IfOk};
ghost use Rattle.sa_text.specs.declared.value.Value.TheVariants.{Of};
ghost use Rattle.sa_alloc.specs.Layouts.{Fresh, Inline, InArena};

use crate::IndexList;
use sa_alloc::Store;
use sa_base::Memory;
use sa_text::{Text, Value, ValueList};
use std::alloc::Global;

/// One letter.
fn short(alloc: Global) -> Result<Value, Memory>
    ensures { IfOk result (λ v. v ≡ Of (97 ∷ [])) }
{
    Ok(Value::Of(Text::from_utf8(alloc, b"a")?))
}

/// Sixteen letters.
fn long(alloc: Global) -> Result<Value, Memory>
    ensures { IfOk result (λ v. v ≡ Of (replicate 16 65)) }
{
    Ok(Value::Of(Text::from_utf8(alloc, b"AAAAAAAAAAAAAAAA")?))
}

/// A letter, and twice sixteen.
pub(crate) fn three(alloc: Global) -> Result<ValueList, Memory>
    ensures { IfOk result (λ l. l ≡ Of (97 ∷ []) ∷ Of (replicate 16 65) ∷ Of (replicate 16 65) ∷ []) }
{
    let mut values = Vec::new(alloc);
    values.push(short(alloc)?)?;
    values.push(long(alloc)?)?;
    values.push(long(alloc)?)?;
    Ok(ValueList::from_vec(values))
}

/// A letter.
pub(crate) fn one(alloc: Global) -> Result<ValueList, Memory>
    ensures { IfOk result (λ l. l ≡ Of (97 ∷ []) ∷ []) }
{
    let mut values = Vec::new(alloc);
    values.push(short(alloc)?)?;
    Ok(ValueList::from_vec(values))
}

/// The first three places.
pub(crate) fn first_three(alloc: Global) -> Result<IndexList, Memory>
    ensures { IfOk result (λ l. l ≡ 0 ∷ 1 ∷ 2 ∷ []) }
{
    IndexList::from_slice(alloc, &[0, 1, 2])
}

/// Two letters, and sixteen.
fn last(alloc: Global) -> Result<ValueList, Memory>
    ensures { IfOk result (λ l. l ≡ Of (97 ∷ []) ∷ Of (97 ∷ []) ∷ Of (replicate 16 65) ∷ []) }
{
    let mut values = Vec::new(alloc);
    values.push(short(alloc)?)?;
    values.push(short(alloc)?)?;
    values.push(long(alloc)?)?;
    Ok(ValueList::from_vec(values))
}

/// A store with two letters at the first places, and sixteen at the third.
pub(crate) fn tidied(alloc: Global) -> Result<Store, Memory>
    ensures { IfOk result (λ s. s.contents.layout ≡ record {
      lengths = 4 ∷ [];
      extents = record { capacity = 16; text = Some (replicate 16 65) } ∷ [];
      states = Inline (97 ∷ []) ∷ Inline (97 ∷ []) ∷ InArena 0 ∷ Fresh ∷ [];
    }) }
{
    let mut store = Store::new(alloc, &[4])?;
    let places = first_three(alloc)?;
    let values = last(alloc)?;
    let plan = store.plan(alloc, 0, places.as_slice(), values.as_slice())?;
    store.write(plan);
    Ok(store)
}
