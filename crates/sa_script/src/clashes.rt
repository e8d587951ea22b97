ghost use Rattle.std.specs.Prelude.{◌≡◌, ◌++◌, IfOk, OnOk};
ghost use Rattle.sa_call.specs.Calls.{homes_in, strings_home};
ghost use Rattle.sa_call.specs.Decls.{home_of};
ghost use Rattle.sa_call.specs.Valid.{rules_fit};
ghost use Rattle.sa_script.specs.Contexts.{declared_in};
ghost use Rattle.sa_script.specs.Resolving.{IsMeant};
ghost use Rattle.sa_script.specs.SoundContexts.{IsSoundContext};

use crate::context::Context;
use sa_base::Memory;
use sa_call::{Call, Operand};
use sa_descr::{CombineError, combine};
use std::alloc::Global;

impl Context {
    /// Whether the rules of a call's views combine, where missing values are not moved as they are.
    pub fn rules_fit(&self, alloc: Global, call: &Call) -> Result<bool, Memory>
        requires sound { IsSoundContext self.now }
        requires meant { IsMeant (declared_in self.now) call.now }
        ensures { IfOk result (λ fit. fit ≡ rules_fit (declared_in self.now) call.now) }
    {
        if call.op.form().group.is_none() {
            return Ok(true);
        }
        let homes = self.homes_in(alloc, call)?;
        match combine(alloc, self.descrs.as_slice(), homes.as_slice()) {
            Ok(_) => Ok(true),
            Err(CombineError::Clash { .. }) => Ok(false),
            Err(CombineError::Memory) => Err(Memory),
        }
    }

    /// The descriptors of a call's views of strings arrays: of the operands in order, then of the output.
    fn homes_in(&self, alloc: Global, call: &Call) -> Result<Vec<u8>, Memory>
        ensures { IfOk result (λ homes. homes.items ≡ homes_in (declared_in self.now) call.now) }
    {
        let mut homes = Vec::with_capacity(alloc, call.operands.len().saturating_add(1))?;
        for operand in call.operands.as_slice() {
            match operand {
                Operand::View(view) => self.push_home(&mut homes, view.array)?,
                Operand::Literal(_) => {}
            }
        }
        if let Some(out) = &call.out {
            self.push_home(&mut homes, out.array)?;
        }
        Ok(homes)
    }

    /// Puts the home of an array at the end, where it is a strings array.
    fn push_home(&self, homes: &mut Vec<u8>, array: u32) -> Result<(), Memory>
        ensures { OnOk result (homes.new.items ≡ homes.old.items ++ strings_home (declared_in self.now) array) }
    {
        if self.kind_of(array).is_strings() {
            homes.push(self.home_at(array))?;
        }
        Ok(())
    }

    /// The home of an array by its number; that of no array is 0.
    fn home_at(&self, array: u32) -> u8
        ensures { result ≡ home_of (declared_in self.now) array }
    {
        let arrays = self.arrays.as_slice();
        match arrays.get(array as usize) {
            Some(array) => array.home,
            None => 0,
        }
    }
}
