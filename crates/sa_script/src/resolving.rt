ghost use Rattle.std.specs.Prelude.{◌≡◌, ◌≤◌, ◌||◌, pos, Some, None, is_none, IfOk, OnOk, unwrap_or, if◌then◌else◌};
ghost use Rattle.sa_call.specs.Decls.{length_at};
ghost use Rattle.sa_view.specs.Views.{natural};
ghost use Rattle.sa_script.specs.Resolving.{IsResolved, IsTaken, AreTaken, fitting_view};
ghost use Rattle.sa_script.specs.SoundContexts.{IsSoundContext};
ghost use Rattle.sa_script.specs.Terms.{is_u32, is_step, given, view_misnamed, view_unfit, view_in, term_slices, line_slices, is_slice, of_output, span_passes, is_past, given_items};
ghost use Rattle.std.specs.List.{list_any};

use crate::context::Context;
use crate::kinds::{are_texts, fill_of, filled};
use crate::statement::{Line, Span, Term, ViewTerm};
use sa_base::{Memory, Sequence};
use sa_call::{Call, Items, Op, Operand, OperandList, ValueList, View};
use std::alloc::Global;

/// What a call's line means under the declarations so far.
#[derive(Drop)]
pub struct Resolved {
    /// A name is used that is not declared, or declared as the other sort.
    pub misnamed: bool,
    /// A list passes a limit, or a number is no i64.
    pub passes: bool,
    /// A view is none of its array.
    pub unfit: bool,
    /// A fill is of another kind than texts, or has a missing value.
    pub miskinded: bool,
    /// A fill is not one text of one code point.
    pub misfilled: bool,
    /// The call, where each view is one of its array.
    pub call: Call,
}

/// What a view of a line means.
#[derive(Clone, Copy)]
struct ResolvedView {
    misnamed: bool,
    passes: bool,
    /// None where it is no view of its array.
    view: Option<View>,
}

impl Context {
    /// Looks a line's names up, and tells what is wrong with it and the call that it means.
    pub fn resolved(&self, alloc: Global, line: Line<'_>) -> Result<Resolved, Memory>
        requires { IsSoundContext self.now }
        ensures { IfOk result (λ r. IsResolved self.now line.entry r) }
    {
        let Line { op, operands, out } = line;
        let mut resolved = self.resolved_terms(alloc, op, operands)?;
        if let Some(out) = out {
            let out = self.resolved_view(&out);
            resolved.note(&out);
            resolved.call.out = out.view;
        }
        Ok(resolved)
    }

    /// What these operands of a call mean.
    fn resolved_terms(
        &self,
        alloc: Global,
        op: Op,
        terms: Sequence<Term<'_>>,
    ) -> Result<Resolved, Memory>
        requires { IsSoundContext self.now }
        ensures { IfOk result (λ r. AreTaken self.now op terms.entry r) }
    {
        let mut resolved = Resolved {
            misnamed: false,
            passes: false,
            unfit: false,
            miskinded: false,
            misfilled: false,
            call: Call {
                op,
                operands: OperandList::new(alloc),
                out: None,
            },
        };
        'terms: for term in terms.into_vec() {
            self.take_term(alloc, &mut resolved, term)?;
        }
        Ok(resolved)
    }

    /// Takes one more term of a line in.
    fn take_term(
        &self,
        alloc: Global,
        resolved: &mut Resolved,
        term: Term<'_>,
    ) -> Result<(), Memory>
        requires { IsSoundContext self.now }
        ensures { OnOk result (IsTaken self.now resolved.old term.entry resolved.new) }
    {
        match term {
            Term::View(term) => {
                let view = self.resolved_view(&term);
                resolved.note(&view);
                if let Some(view) = view.view {
                    resolved.call.operands.push(Operand::View(view))?;
                }
                Ok(())
            }
            Term::List(items) => {
                resolved.passes = resolved.passes || items.is_none();
                let mut items = given_items(alloc, items);
                items.share(alloc)?;
                resolved.call.operands.push(Operand::Literal(items))?;
                Ok(())
            }
            Term::Fill(items) => {
                resolved.passes = resolved.passes || items.is_none();
                let items = given_items(alloc, items);
                let fill = fill_of(&items);
                resolved.miskinded = resolved.miskinded || !are_texts(&items);
                resolved.misfilled = resolved.misfilled || fill.is_none();
                resolved.call.op = filled(resolved.call.op, fill);
                Ok(())
            }
            Term::Descr(name) => {
                let number = self.names.descr_number(&name);
                resolved.misnamed = resolved.misnamed || number.is_none();
                resolved.call.op = resolved.call.op.on_descr(number.unwrap_or(0) as u8);
                Ok(())
            }
        }
    }

    /// What a view of a line means.
    fn resolved_view(&self, term: &ViewTerm<'_>) -> ResolvedView
        requires { IsSoundContext self.now }
        ensures misnamed { result.misnamed ≡ view_misnamed self.now term.now }
        ensures passes { result.passes ≡ span_passes term.now.span }
        ensures view { result.view ≡ (if view_unfit self.now term.now then None else Some (view_in self.now term.now)) }
    {
        let number = self.names.array_number(&term.name);
        let array = number.unwrap_or(0);
        let len = self.len_of(array);
        ResolvedView {
            misnamed: number.is_none(),
            passes: passes(&term.span),
            view: fitting_view(array as u32, len, &term.span),
        }
    }

    /// The length of an array by its number, 0 where there is none.
    fn len_of(&self, number: usize) -> u32
        requires { IsSoundContext self.now }
        ensures length { result ≡ length_at self.now.arrays number }
        ensures few { result ≤ 8192 }
    {
        let arrays = self.arrays.as_slice();
        if number < arrays.len() {
            arrays[number].len
        } else {
            0
        }
    }
}

impl Resolved {
    /// Notes what is wrong with a view.
    fn note(&mut self, view: &ResolvedView)
        ensures misnamed { self.new.misnamed ≡ (self.old.misnamed || view.now.misnamed) }
        ensures passes { self.new.passes ≡ (self.old.passes || view.now.passes) }
        ensures unfit { self.new.unfit ≡ (self.old.unfit || is_none view.now.view) }
        ensures miskinded { self.new.miskinded ≡ self.old.miskinded }
        ensures misfilled { self.new.misfilled ≡ self.old.misfilled }
        ensures call { self.new.call ≡ self.old.call }
    {
        self.misnamed = self.misnamed || view.misnamed;
        self.passes = self.passes || view.passes;
        self.unfit = self.unfit || view.view.is_none();
    }
}

/// The items of a list; none of one that passes a limit.
fn given_items(alloc: Global, items: Option<Items>) -> Items
    ensures { result ≡ given_items items }
{
    match items {
        Some(items) => items,
        None => Items::Values(ValueList::new(alloc)),
    }
}

/// Whether a line has a slice.
pub fn has_slices(line: &Line<'_>) -> bool
    ensures { result ≡ line_slices line.now }
{
    any_slices(line.operands.as_slice()) || is_slice_of(&line.out)
}

/// Whether one of these operands is a slice.
fn any_slices(terms: &[Term<'_>]) -> bool
    ensures { result ≡ list_any term_slices terms.now }
{
    terms.iter().any(|term| is_slice_term(term))
}

fn is_slice_term(term: &Term<'_>) -> bool
    ensures { result ≡ term_slices term.now }
{
    match term {
        Term::View(view) => matches!(view.span, Span::Slice(_, _, _)),
        Term::List(_) | Term::Fill(_) | Term::Descr(_) => false,
    }
}

fn is_slice_of(out: &Option<ViewTerm<'_>>) -> bool
    ensures { result ≡ of_output (λ v. is_slice v.span) out.now }
{
    match out {
        Some(view) => matches!(view.span, Span::Slice(_, _, _)),
        None => false,
    }
}

/// Whether a number of the span is no i64.
fn passes(span: &Span) -> bool
    ensures { result ≡ span_passes span.now }
{
    match span {
        Span::Whole => false,
        Span::Strided(start, count, step) => {
            start.is_none() || count.is_none() || step.is_none()
        }
        Span::Slice(from, to, step) => is_past(*from) || is_past(*to) || is_past(*step),
    }
}

/// Whether a bound is no i64.
fn is_past(bound: Option<Option<i64>>) -> bool
    ensures { result ≡ is_past bound }
{
    matches!(bound, Some(None))
}

/// The view of an array of this number and length that a span means, none where it means none.
fn fitting_view(array: u32, len: u32, span: &Span) -> Option<View>
    requires { len ≤ 8192 }
    ensures { result ≡ fitting_view array len span.now }
{
    match span {
        Span::Whole => Some(View {
            array,
            start: 0,
            count: len,
            step: 1,
        }),
        Span::Strided(start, count, step) => strided(array, len, *start, *count, *step),
        Span::Slice(from, to, step) => slice(array, len, *from, *to, *step),
    }
}

/// The view of this start, count and step, none where it does not fit.
fn strided(
    array: u32,
    len: u32,
    start: Option<i64>,
    count: Option<i64>,
    step: Option<i64>,
) -> Option<View>
    ensures { result ≡ fitting_view array len (Span.Strided start count step) }
{
    let view = View {
        array,
        start: place(start)?,
        count: place(count)?,
        step: stride(step)?,
    };
    if view.fits(len) { Some(view) } else { None }
}

/// A number of 32 bits without a sign.
fn place(number: Option<i64>) -> Option<u32>
    ensures { result ≡ (if is_u32 number then Some (natural (unwrap_or number (pos 0))) else None) }
{
    u32::try_from(number?).ok()
}

/// A number of 32 bits with a sign.
fn stride(number: Option<i64>) -> Option<i32>
    ensures { result ≡ (if is_step number then Some (unwrap_or number (pos 1)) else None) }
{
    i32::try_from(number?).ok()
}

/// The slice of these bounds and step, none where the step is 0 or too far.
fn slice(
    array: u32,
    len: u32,
    from: Option<Option<i64>>,
    to: Option<Option<i64>>,
    step: Option<Option<i64>>,
) -> Option<View>
    requires { len ≤ 8192 }
    ensures { result ≡ fitting_view array len (Span.Slice from to step) }
{
    let step = stride(Some(given(step).unwrap_or(1)))?;
    if step == 0 {
        return None;
    }
    Some(View::slice(array, len, given(from), given(to), step))
}

/// A bound, none where it is left out or no i64.
fn given(bound: Option<Option<i64>>) -> Option<i64>
    ensures { result ≡ given bound }
{
    match bound {
        Some(bound) => bound,
        None => None,
    }
}
