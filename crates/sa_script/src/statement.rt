use crate::name::Name;
use sa_base::Sequence;
use sa_call::Op;
use sa_descr::NaRule;
use sa_plain::Items;

/// A statement, as its line spells it. What passes a limit is none inside: a text that is too long, a
/// number that is no i64, a list that is too long or has such a text.
#[derive(Drop)]
pub enum Statement<'a> {
    /// The script is of version 2.
    Version,
    /// A descriptor: its name, its rule, and whether it coerces.
    Descr(Name<'a>, Option<NaRule>, bool),
    /// An array: its name, the name of its home, its kind, and its length.
    Array(Name<'a>, Name<'a>, KindTerm, Option<i64>),
    /// The next task begins.
    Task,
    /// A call of the task.
    Call(Line<'a>),
    /// The script ends.
    End,
}

/// The kind of an array; a width that is no i64 is none.
#[derive(Clone, Copy, Debug)]
pub enum KindTerm {
    /// Values.
    Str,
    /// Numbers.
    Int,
    /// Truth values.
    Bool,
    /// Byte texts of this width.
    Bytes(Option<i64>),
    /// Unicode texts of this width.
    Fixed(Option<i64>),
}

/// A call's line: what it does, its operands in order, and its output.
#[derive(Drop)]
pub struct Line<'a> {
    pub op: Op,
    pub operands: Sequence<Term<'a>>,
    pub out: Option<ViewTerm<'a>>,
}

/// An operand of a line.
#[derive(Drop)]
pub enum Term<'a> {
    /// A view of an array.
    View(ViewTerm<'a>),
    /// A list of items.
    List(Option<Items>),
    /// A list that is the fill.
    Fill(Option<Items>),
    /// The name of a descriptor.
    Descr(Name<'a>),
}

/// A view: the name of its array, and which of its places.
#[derive(Drop)]
pub struct ViewTerm<'a> {
    pub name: Name<'a>,
    pub span: Span,
}

/// Places of an array.
#[derive(Clone, Copy, Debug)]
pub enum Span {
    /// All of them, in order.
    Whole,
    /// Start, count and step.
    Strided(Option<i64>, Option<i64>, Option<i64>),
    /// Two bounds and a step of a slice; the outer none is one that is left out.
    Slice(Option<Option<i64>>, Option<Option<i64>>, Option<Option<i64>>),
}
