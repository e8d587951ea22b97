ghost use Rattle.std.specs.Prelude.{◌≡◌, ◌++◌, [], is_some, true, IfOk, OnOk};
ghost use Rattle.sa_call.specs.Calls.{homes_in, strings_home};
ghost use Rattle.sa_call.specs.Decides.{rule_in, text_of_rule};
ghost use Rattle.sa_call.specs.Decls.{IsDeclared, home_of, is_strings_array, kind_of};
ghost use Rattle.sa_call.specs.Forms.{entry};
ghost use Rattle.sa_call.specs.Valid.{IsCall};

use crate::call::{Call, Operand};
use crate::decls::{Decls, Kind};
use sa_base::Memory;
use sa_descr::{CombineError, NaRule, combine};
use sa_text::Text;
use std::alloc::Global;

/// The rule of a valid call: the combination of the rules of the descriptors of its views of strings arrays,
/// the output's included.
pub(crate) fn rule_in(alloc: Global, decls: &Decls, call: &Call) -> Result<NaRule, Memory>
    requires declared { IsDeclared decls.now }
    requires call { IsCall decls.now call.now }
    requires group { is_some (entry call.now.op).group ≡ true }
    ensures { IfOk result (λ rule. rule ≡ rule_in decls.now call.now) }
{
    let homes = homes_in(alloc, decls, call)?;
    match combine(alloc, decls.descrs(), homes.as_slice()) {
        Ok(rule) => Ok(rule),
        Err(CombineError::Memory) => Err(Memory),
        Err(CombineError::Clash { .. }) => unreachable!(),
    }
}

/// The descriptors of a call's views of strings arrays: of the operands in order, then of the output.
pub fn homes_in(alloc: Global, decls: &Decls, call: &Call) -> Result<Vec<u8>, Memory>
    ensures { IfOk result (λ homes. homes.items ≡ homes_in decls.now call.now) }
{
    let mut homes = Vec::with_capacity(alloc, call.operands.len().saturating_add(1))?;
    for operand in call.operands.as_slice() {
        match operand {
            Operand::View(view) => push_home(&mut homes, decls, view.array)?,
            Operand::Literal(_) => {}
        }
    }
    if let Some(out) = &call.out {
        push_home(&mut homes, decls, out.array)?;
    }
    Ok(homes)
}

/// Puts the home of an array at the end, where it is a strings array.
fn push_home(homes: &mut Vec<u8>, decls: &Decls, array: u32) -> Result<(), Memory>
    ensures { OnOk result (homes.new.items ≡ homes.old.items ++ strings_home decls.now array) }
{
    if is_strings_array(decls, array) {
        homes.push(home_of(decls, array))?;
    }
    Ok(())
}

/// Whether an array holds values. No array is as one that does.
pub fn is_strings_array(decls: &Decls, array: u32) -> bool
    ensures { result ≡ is_strings_array decls.now array }
{
    kind_of(decls, array).is_strings()
}

/// What the items of an array are; those of no array are values.
pub fn kind_of(decls: &Decls, array: u32) -> Kind
    ensures { result ≡ kind_of decls.now array }
{
    match decls.arrays().get(array as usize) {
        Some(array) => array.kind,
        None => Kind::Str,
    }
}

/// The home of an array; that of no array is 0.
pub fn home_of(decls: &Decls, array: u32) -> u8
    ensures { result ≡ home_of decls.now array }
{
    match decls.arrays().get(array as usize) {
        Some(array) => array.home,
        None => 0,
    }
}

/// The text of a text rule, which stands for a missing one; else the empty text.
pub(crate) fn text_of_rule(alloc: Global, rule: NaRule) -> Result<Text, Memory>
    ensures { IfOk result (λ text. text ≡ text_of_rule rule) }
{
    match rule {
        NaRule::Txt(text) => Ok(text),
        NaRule::Absent => empty(alloc),
        NaRule::Nan => empty(alloc),
        NaRule::Other => empty(alloc),
    }
}

/// The empty text.
fn empty(alloc: Global) -> Result<Text, Memory>
    ensures { IfOk result (λ text. text ≡ []) }
{
    Text::from_utf8(alloc, b"")
}
