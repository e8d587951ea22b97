ghost use Rattle.std.specs.Prelude.{◌≡◌, ◌<◌, ◌∷◌, ◌++◌, [], IfOk, OnOk, Option, Some, None, false};
ghost use Rattle.std.specs.Str.{is_utf8};
ghost use Rattle.sa_script.specs.Contexts.{nothing, with_descr, with_array, with_last, with_call, home_number, kind_in, length_allowed, width_allowed};
ghost use Rattle.sa_script.specs.Faults.{code_of, kind_passes, passes_entries, width_passes};
ghost use Rattle.sa_script.specs.Scripts.{GivesScript, meaning, unless_fault, line_after, statement_after, script_value};
ghost use Rattle.sa_script.specs.SoundContexts.{IsSoundContext};
ghost use Rattle.sa_script.specs.Spelled.{IsSpelled, IsLine};

use crate::cause::Cause;
use crate::context::Context;
use crate::fault::ScriptFault;
use crate::name::Name;
use crate::names::Names;
use crate::reading::statement_of;
use crate::resolving::has_slices;
use crate::script::Script;
use crate::statement::{KindTerm, Line, Statement};
use sa_base::{Memory, Sequence};
use sa_call::{ArrayDecl, Call, CallList, Decls, Kind, TaskList};
use sa_descr::{Descr, NaRule};
use sa_lines::{cut_line, is_skipped};
use sa_plain::PlainKind;
use std::alloc::Global;

/// The script that the bytes are: its version, declarations, names and calls. Otherwise the least faulty line,
/// counted from 1, and the first fault of that line; a script without its end is cut at its last line.
pub fn parse(alloc: Global, bytes: &[u8]) -> Result<Script, ScriptFault>
    ensures { GivesScript result (meaning bytes.now) }
{
    let mut context = Context::new(alloc);
    let mut scratch = Vec::new(alloc);
    let mut rest = bytes;
    let mut number = 0u64;
    'lines: while !rest.is_empty() {
        let (line, others) = cut_line(rest);
        rest = others;
        number += 1;
        match context.line(alloc, &mut scratch, line) {
            Ok(None) => {}
            Ok(Some(cause)) => return Err(fault(cause, number)),
            Err(Memory) => return Err(ScriptFault::Memory),
        }
    }
    if !context.ended {
        return Err(fault(Cause::Cut, number));
    }
    Ok(context.finish())
}

/// A fault of this cause at a line.
fn fault(cause: Cause, line: u64) -> ScriptFault
    ensures { result ≡ ScriptFault.Fault (code_of cause) line }
{
    ScriptFault::Fault {
        code: cause.code(),
        line,
    }
}

impl Context {
    /// Nothing is declared. It takes no memory.
    fn new(alloc: Global) -> Context
        ensures { result ≡ nothing }
    {
        Context {
            version: 1,
            begun: false,
            descrs: Sequence::new(alloc),
            arrays: Sequence::new(alloc),
            names: Names::new(alloc),
            tasks: TaskList::new(alloc),
            calls: 0,
            ended: false,
        }
    }

    /// Takes the next line, and answers its first fault, if any.
    fn line(
        &mut self,
        alloc: Global,
        scratch: &mut Vec<u8>,
        line: &[u8],
    ) -> Result<Option<Cause>, Memory>
        requires { IsSoundContext self.old }
        ensures line { IfOk result (λ fault. line_after self.old line.now ≡ unless_fault self.new fault) }
        ensures sound { IfOk result (λ fault. fault ≡ None → IsSoundContext self.new) }
    {
        if !is_text(line) {
            return Ok(Some(Cause::Utf8));
        }
        if is_skipped(line) {
            return Ok(None);
        }
        match statement_of(alloc, scratch, line)? {
            Some(statement) => self.take(alloc, statement),
            None => Ok(Some(Cause::Syntax)),
        }
    }

    /// Takes a statement, and answers its first fault, if any.
    fn take(&mut self, alloc: Global, statement: Statement<'_>) -> Result<Option<Cause>, Memory>
        requires sound { IsSoundContext self.old }
        requires spelled { IsSpelled statement }
        ensures { IfOk result (λ fault. statement_after self.old (Some statement.entry) ≡ unless_fault self.new fault) }
    {
        match statement {
            Statement::Version => Ok(self.take_version()),
            Statement::Descr(name, rule, coerce) => self.take_descr(alloc, &name, rule, coerce),
            Statement::Array(name, home, kind, len) => {
                self.take_array(alloc, &name, &home, kind, len)
            }
            Statement::Task => self.take_task(alloc),
            Statement::Call(line) => self.take_call(alloc, line),
            Statement::End => Ok(self.take_end()),
        }
    }

    /// Takes `version 2`, if it has no fault.
    fn take_version(&mut self) -> Option<Cause>
        ensures { statement_after self.old (Some Statement.Version) ≡ unless_fault self.new result }
    {
        let fault = self.version_fault();
        if fault.is_none() {
            self.version = 2;
            self.begun = true;
        }
        fault
    }

    /// Declares a descriptor, if it has no fault.
    fn take_descr(
        &mut self,
        alloc: Global,
        name: &Name<'_>,
        rule: Option<NaRule>,
        coerce: bool,
    ) -> Result<Option<Cause>, Memory>
        ensures { IfOk result (λ fault. statement_after self.old (Some (Statement.Descr name.now rule coerce)) ≡ unless_fault self.new fault) }
    {
        if let Some(fault) = self.descr_fault(name, &rule) {
            return Ok(Some(fault));
        }
        self.add_descr(alloc, name, rule.unwrap_or(NaRule::Absent), coerce)?;
        self.begun = true;
        Ok(None)
    }

    /// Declares an array, if it has no fault.
    fn take_array(
        &mut self,
        alloc: Global,
        name: &Name<'_>,
        home: &Name<'_>,
        kind: KindTerm,
        len: Option<i64>,
    ) -> Result<Option<Cause>, Memory>
        requires { IsSoundContext self.old }
        ensures { IfOk result (λ fault. statement_after self.old (Some (Statement.Array name.now home.now kind len)) ≡ unless_fault self.new fault) }
    {
        if let Some(fault) = self.array_fault(name, home, kind, len) {
            return Ok(Some(fault));
        }
        let home = self.home_of(home);
        self.add_array(alloc, name, home, kind_in(kind), length_allowed(len))?;
        self.begun = true;
        Ok(None)
    }

    /// Begins the next task, if that has no fault.
    fn take_task(&mut self, alloc: Global) -> Result<Option<Cause>, Memory>
        ensures { IfOk result (λ fault. statement_after self.old (Some Statement.Task) ≡ unless_fault self.new fault) }
    {
        if let Some(fault) = self.task_fault() {
            return Ok(Some(fault));
        }
        self.tasks.push(CallList::new(alloc))?;
        self.begun = true;
        Ok(None)
    }

    /// One more call of the last task, if it has no fault.
    fn take_call(&mut self, alloc: Global, line: Line<'_>) -> Result<Option<Cause>, Memory>
        requires sound { IsSoundContext self.old }
        requires spelled { IsLine line }
        ensures { IfOk result (λ fault. statement_after self.old (Some (Statement.Call line.entry)) ≡ unless_fault self.new fault) }
    {
        let slices = has_slices(&line);
        let resolved = self.resolved(alloc, line)?;
        if let Some(fault) = self.call_fault(alloc, slices, &resolved)? {
            return Ok(Some(fault));
        }
        self.add_call(resolved.call)?;
        self.begun = true;
        Ok(None)
    }

    /// Ends the script, if that has no fault.
    fn take_end(&mut self) -> Option<Cause>
        ensures { statement_after self.old (Some Statement.End) ≡ unless_fault self.new result }
    {
        let fault = self.end_fault();
        if fault.is_none() {
            self.ended = true;
            self.begun = true;
        }
        fault
    }

    /// Declares a descriptor.
    fn add_descr(
        &mut self,
        alloc: Global,
        name: &Name<'_>,
        rule: NaRule,
        coerce: bool,
    ) -> Result<(), Memory>
        ensures { OnOk result (self.new ≡ with_descr self.old name.now rule coerce) }
    {
        self.names.add_descr(alloc, name)?;
        self.descrs.push(Descr { na: rule, coerce })?;
        Ok(())
    }

    /// Declares an array of a declared home.
    fn add_array(
        &mut self,
        alloc: Global,
        name: &Name<'_>,
        home: u8,
        kind: Kind,
        len: u32,
    ) -> Result<(), Memory>
        ensures { OnOk result (self.new ≡ with_array self.old name.now home kind len) }
    {
        self.names.add_array(alloc, name)?;
        self.arrays.push(ArrayDecl { home, kind, len })?;
        Ok(())
    }

    /// One more call of the last task.
    fn add_call(&mut self, call: Call) -> Result<(), Memory>
        requires { self.old.calls < 1024 }
        ensures { OnOk result (self.new ≡ with_last self.old call) }
    {
        self.calls += 1;
        push_call(&mut self.tasks, call)
    }

    /// The number of a declared home.
    fn home_of(&self, home: &Name<'_>) -> u8
        requires { IsSoundContext self.now }
        ensures { result ≡ home_number self.now home.now }
    {
        self.names.descr_number(home).unwrap_or(0) as u8
    }

    /// The script, of lines that have ended.
    fn finish(self) -> Script
        requires { IsSoundContext self }
        ensures { result ≡ script_value self }
    {
        let decls = Decls::new(self.descrs.into_vec(), self.arrays.into_vec());
        Script::new(self.version, decls, self.names, self.tasks)
    }
}

/// One more call of the last task.
#[tactic(auto, using(crate::proofs::CallLemmas::with_call_last))]
fn push_call(tasks: &mut TaskList, call: Call) -> Result<(), Memory>
    ensures { OnOk result (tasks.new ≡ with_call tasks.old call) }
{
    let Some(mut calls) = tasks.pop() else {
        return Ok(());
    };
    calls.push(call)?;
    tasks.push(calls)?;
    Ok(())
}

/// Whether a line is UTF-8.
fn is_text(line: &[u8]) -> bool
    ensures { result ≡ is_utf8 line.now }
{
    simdutf8::is_utf8(line)
}

/// The kind of an array without a fault.
fn kind_in(kind: KindTerm) -> Kind
    requires { kind_passes kind ≡ false }
    ensures { result ≡ kind_in kind }
{
    match kind {
        KindTerm::Str => Kind::Str,
        KindTerm::Int => Kind::Plain(PlainKind::Int),
        KindTerm::Bool => Kind::Plain(PlainKind::Bool),
        KindTerm::Bytes(width) => Kind::Plain(PlainKind::Bytes(width_allowed(width))),
        KindTerm::Fixed(width) => Kind::Plain(PlainKind::Fixed(width_allowed(width))),
    }
}

/// The width of an array without a fault.
fn width_allowed(width: Option<i64>) -> u16
    requires { width_passes width ≡ false }
    ensures { result ≡ width_allowed width }
{
    match width {
        Some(width) => width as u16,
        None => 0,
    }
}

/// The length of an array without a fault.
fn length_allowed(len: Option<i64>) -> u32
    requires { passes_entries 0 len ≡ false }
    ensures { result ≡ length_allowed len }
{
    match len {
        Some(len) => len as u32,
        None => 0,
    }
}
