ghost use Rattle.std.specs.Prelude.{◌≡◌, ◌||◌, nat_le, false, length, Some, None, is_none, pos, IfOk, map, true};
ghost use Rattle.std.specs.List.{AllByRecursion};
ghost use Rattle.sa_call.specs.Calls.{lengths_fit, operand_count};
ghost use Rattle.sa_call.specs.Decls.{entries_of};
ghost use Rattle.sa_call.specs.Valid.{IsLiteralOperand};
ghost use Rattle.sa_script.specs.Contexts.{declared_in, home_number, is_known, descr_number};
ghost use Rattle.sa_script.specs.Faults.{fault_of, has_tasks, is_long, kind_passes, passes_entries, width_passes};
ghost use Rattle.sa_script.specs.Resolving.{call_fault, IsMeant};
ghost use Rattle.sa_script.specs.SoundContexts.{IsSoundContext};
ghost use Rattle.sa_script.specs.declared.statement.Statement.{Statement};

use crate::cause::Cause;
use crate::context::Context;
use crate::name::Name;
use crate::resolving::Resolved;
use crate::statement::KindTerm;
use sa_base::Memory;
use sa_call::{ArrayDecl, Call, Operand};
use sa_descr::NaRule;
use sa_view::broadcast;
use std::alloc::Global;

/// The most descriptors of a script.
const MOST_DESCRS: usize = 8;

/// The most arrays of a script.
const MOST_ARRAYS: usize = 64;

/// The most entries of all arrays of one descriptor together.
const MOST_ENTRIES: u64 = 8192;

/// The widest a text of a fixed width may be.
const MOST_WIDTH: i64 = 256;

/// The most tasks of a script.
const MOST_TASKS: usize = 64;

/// The most calls of a script.
const MOST_CALLS: u32 = 1024;

/// The most bytes of a declared name.
const MOST_NAME_BYTES: usize = 32;

impl Context {
    /// The first fault of `version 2` in its place, if any. Here and below it is the one with the least
    /// number.
    pub fn version_fault(&self) -> Option<Cause>
        ensures { result ≡ fault_of self.now Statement.Version }
    {
        if self.begun {
            Some(Cause::Syntax)
        } else {
            self.end_fault()
        }
    }

    /// The first fault of a descriptor. Whether it coerces does not matter.
    pub fn descr_fault(&self, name: &Name<'_>, rule: &Option<NaRule>) -> Option<Cause>
        ensures { result ≡ fault_of self.now (Statement.Descr name.now rule.now true) }
    {
        if self.ended || self.has_tasks() {
            Some(Cause::Order)
        } else if self.names.is_known(name) {
            Some(Cause::Name)
        } else if is_long(name) || rule.is_none() || self.descrs.len() >= MOST_DESCRS {
            Some(Cause::Limit)
        } else {
            None
        }
    }

    /// The first fault of an array.
    pub fn array_fault(
        &self,
        name: &Name<'_>,
        home: &Name<'_>,
        kind: KindTerm,
        len: Option<i64>,
    ) -> Option<Cause>
        ensures { result ≡ fault_of self.now (Statement.Array name.now home.now kind len) }
    {
        if self.ended || self.has_tasks() {
            Some(Cause::Order)
        } else if self.is_array_misnamed(name, home) {
            Some(Cause::Name)
        } else if self.array_passes(name, home, kind, len) {
            Some(Cause::Limit)
        } else {
            None
        }
    }

    /// The first fault of the next task's begin.
    pub fn task_fault(&self) -> Option<Cause>
        ensures { result ≡ fault_of self.now Statement.Task }
    {
        if self.ended {
            Some(Cause::Order)
        } else if self.tasks.len() >= MOST_TASKS {
            Some(Cause::Limit)
        } else {
            None
        }
    }

    /// The first fault of the end.
    pub fn end_fault(&self) -> Option<Cause>
        ensures { result ≡ fault_of self.now Statement.End }
    {
        if self.ended { Some(Cause::Order) } else { None }
    }

    /// The first fault of a call of which this is told; `slices` says that it has a slice.
    pub fn call_fault(
        &self,
        alloc: Global,
        slices: bool,
        call: &Resolved,
    ) -> Result<Option<Cause>, Memory>
        requires sound { IsSoundContext self.now }
        requires meant { call.now.misnamed ≡ false → call.now.passes ≡ false → call.now.unfit ≡ false → IsMeant (declared_in self.now) call.now.call }
        ensures { IfOk result (λ fault. fault ≡ call_fault self.now slices call.now) }
    {
        if self.version == 1 && slices {
            Ok(Some(Cause::Syntax))
        } else if self.ended || !self.has_tasks() {
            Ok(Some(Cause::Order))
        } else if call.misnamed {
            Ok(Some(Cause::Name))
        } else if call.passes || self.calls >= MOST_CALLS {
            Ok(Some(Cause::Limit))
        } else if call.unfit {
            Ok(Some(Cause::View))
        } else if call.miskinded || !self.call_kinds_fit(&call.call) {
            Ok(Some(Cause::Kind))
        } else if !lengths_fit(alloc, &call.call)? {
            Ok(Some(Cause::Lengths))
        } else if !self.rules_fit(alloc, &call.call)? {
            Ok(Some(Cause::Clash))
        } else if call.misfilled {
            Ok(Some(Cause::Fill))
        } else {
            Ok(None)
        }
    }

    fn has_tasks(&self) -> bool
        ensures { result ≡ has_tasks self.now }
    {
        self.tasks.len() > 0
    }

    /// Whether an array's name is declared already, or its home is no declared descriptor.
    fn is_array_misnamed(&self, name: &Name<'_>, home: &Name<'_>) -> bool
        ensures { result ≡ (is_known self.now.names name.now || is_none (descr_number self.now home.now)) }
    {
        self.names.is_known(name) || self.names.descr_number(home).is_none()
    }

    /// Whether an array's name is too long, there are as many arrays as may be, or its width or its
    /// length passes a limit.
    fn array_passes(
        &self,
        name: &Name<'_>,
        home: &Name<'_>,
        kind: KindTerm,
        len: Option<i64>,
    ) -> bool
        ensures { result ≡ (((is_long name.now || nat_le 64 (length self.now.arrays)) || kind_passes kind) || passes_entries (entries_of self.now.arrays (home_number self.now home.now)) len) }
    {
        is_long(name)
            || self.arrays.len() >= MOST_ARRAYS
            || kind_passes(kind)
            || self.passes_entries(home, len)
    }

    /// Whether an array of this length has a length below 0 or no i64, or passes the limit of its
    /// descriptor's entries.
    fn passes_entries(&self, home: &Name<'_>, len: Option<i64>) -> bool
        ensures { result ≡ passes_entries (entries_of self.now.arrays (home_number self.now home.now)) len }
    {
        let Some(len) = len else {
            return true;
        };
        let Ok(len) = u64::try_from(len) else {
            return true;
        };
        let home = self.names.descr_number(home).unwrap_or(0);
        passes(self.arrays.as_slice(), home, len)
    }
}

/// Whether a kind has a width that is below 1, above the most or no i64.
fn kind_passes(kind: KindTerm) -> bool
    ensures { result ≡ kind_passes kind }
{
    match kind {
        KindTerm::Str | KindTerm::Int | KindTerm::Bool => false,
        KindTerm::Bytes(width) | KindTerm::Fixed(width) => width_passes(width),
    }
}

fn width_passes(width: Option<i64>) -> bool
    ensures { result ≡ width_passes width }
{
    match width {
        Some(width) => width < 1 || width > MOST_WIDTH,
        None => true,
    }
}

/// Whether a name is longer than a declared one may be.
fn is_long(name: &Name<'_>) -> bool
    ensures { result ≡ is_long name.now }
{
    name.as_str().len() > MOST_NAME_BYTES
}

/// Whether the arrays of this home and one of this length pass the limit of entries together.
fn passes(arrays: &[ArrayDecl], home: usize, len: u64) -> bool
    ensures { result ≡ passes_entries (entries_of arrays.now home) (Some (pos len)) }
{
    if len > MOST_ENTRIES {
        return true;
    }
    let mut room = MOST_ENTRIES - len;
    for array in arrays {
        if usize::from(array.home) == home {
            let len = u64::from(array.len);
            if len > room {
                return true;
            }
            room -= len;
        }
    }
    false
}

/// Whether the counts of operands and output have a length, and it is the output's.
fn lengths_fit(alloc: Global, call: &Call) -> Result<bool, Memory>
    requires { AllByRecursion IsLiteralOperand call.now.operands }
    ensures { IfOk result (λ fit. fit ≡ lengths_fit call.now) }
{
    let mut counts = operand_counts(alloc, call.operands.as_slice())?;
    let Some(out) = &call.out else {
        return Ok(broadcast(counts.as_slice()).is_some());
    };
    counts.push(out.count)?;
    Ok(broadcast(counts.as_slice()) == Some(out.count))
}

/// How many items each operand has.
fn operand_counts(alloc: Global, operands: &[Operand]) -> Result<Vec<u32>, Memory>
    requires { AllByRecursion IsLiteralOperand operands.now }
    ensures { IfOk result (λ counts. counts.items ≡ map operand_count operands.now) }
{
    let mut counts = Vec::new(alloc);
    for operand in operands {
        counts.push(operand_count(operand))?;
    }
    Ok(counts)
}

/// How many items an operand has.
fn operand_count(operand: &Operand) -> u32
    requires { IsLiteralOperand operand.now }
    ensures { result ≡ operand_count operand.now }
{
    match operand {
        Operand::View(view) => view.count,
        Operand::Literal(items) => items.len() as u32,
    }
}
