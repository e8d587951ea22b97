ghost use Rattle.std.specs.Prelude.{◌≡◌, option_map};
ghost use Rattle.std.specs.List.{list_all, list_any};
ghost use Rattle.sa_text.specs.Values.{is_missing};
ghost use Rattle.sa_call.specs.Decls.{kind_of};
ghost use Rattle.sa_call.specs.Forms.{is_operand};
ghost use Rattle.sa_call.specs.Kinds.{are_values, are_within, fits_kind, fits_plain, holds_numbers, holds_truths, is_same_kind, is_same_plain};
ghost use Rattle.sa_call.specs.Valid.{are_numbers, call_kinds_fit, goes_into, is_kind, kinds_fit, moves_into, results_fit};
ghost use Rattle.sa_script.specs.Contexts.{declared_in};
ghost use Rattle.sa_script.specs.Kinds.{kinds_read};
ghost use Rattle.sa_script.specs.Terms.{are_texts, fill_of, filled, point_of, value_point, values_point};

use crate::context::Context;
use sa_call::{Call, Items, Kind, Op, Operand, Results, Sort, ValueList, View};
use sa_plain::{ByteList, PlainKind, UnitList};
use sa_text::{Text, Value, first_point};

impl Context {
    /// Whether the operands and the results of a call have the kinds that the table asks for.
    pub fn call_kinds_fit(&self, call: &Call) -> bool
        ensures { result ≡ call_kinds_fit (declared_in self.now) call.now }
    {
        let operands = call.operands.as_slice();
        self.kinds_fit(call.op, operands)
            && self.results_fit(call.op.form().results, operands, &call.out)
    }

    /// Whether each operand has the kind that the table asks for.
    fn kinds_fit(&self, op: Op, operands: &[Operand]) -> bool
        ensures { result ≡ kinds_fit (declared_in self.now) op operands.now }
    {
        let form = op.form();
        let Some(rest) = self.kinds_read(form.needs, operands) else {
            return false;
        };
        match self.kinds_read(form.may, rest) {
            Some(left) => left.is_empty(),
            None => false,
        }
    }

    /// The operands behind those of these sorts, none where one has another kind than its sort.
    fn kinds_read<'a>(&self, sorts: &[Sort], operands: &'a [Operand]) -> Option<&'a [Operand]>
        ensures { option_map (λ os. os.now) result ≡ kinds_read (declared_in self.now) sorts.now operands.now }
    {
        let mut rest = operands;
        'sorts: for sort in sorts {
            if !is_operand(*sort) {
                continue;
            }
            let Some((operand, others)) = rest.split_first() else {
                return Some(rest);
            };
            if !self.is_kind(*sort, operand) {
                return None;
            }
            rest = others;
        }
        Some(rest)
    }

    /// Whether an operand has the kind of its sort.
    fn is_kind(&self, sort: Sort, operand: &Operand) -> bool
        ensures { result ≡ is_kind (declared_in self.now) sort operand.now }
    {
        match (sort, operand) {
            (Sort::Texts, Operand::View(view)) => self.kind_of(view.array).is_strings(),
            (Sort::Texts, Operand::Literal(items)) => are_texts(items),
            (Sort::Numbers, Operand::View(view)) => holds_numbers(self.kind_of(view.array)),
            (Sort::Numbers, Operand::Literal(items)) => are_numbers(items),
            _ => true,
        }
    }

    /// Whether an output takes results of this kind; without one they are answered.
    fn results_fit(&self, given: Results, operands: &[Operand], out: &Option<View>) -> bool
        ensures { result ≡ results_fit (declared_in self.now) given operands.now out.now }
    {
        match out {
            None => true,
            Some(out) => self.goes_into(self.kind_of(out.array), operands, given),
        }
    }

    /// Whether results go into an array of this kind.
    fn goes_into(&self, kind: Kind, operands: &[Operand], given: Results) -> bool
        ensures { result ≡ goes_into (declared_in self.now) kind operands.now given }
    {
        match given {
            Results::Moved => self.all_move_into(kind, operands),
            Results::Texts => kind.is_strings(),
            Results::Numbers => holds_numbers(kind),
            Results::Flags => holds_truths(kind),
        }
    }

    /// Whether each operand may be moved into an array of this kind.
    fn all_move_into(&self, kind: Kind, operands: &[Operand]) -> bool
        ensures { result ≡ list_all (moves_into (declared_in self.now) kind) operands.now }
    {
        operands
            .iter()
            .all(|operand| self.moves_into(kind, operand))
    }

    /// Whether an operand may be moved into an array of this kind: a view of an array of the same kind and
    /// width, or items that the array may hold.
    fn moves_into(&self, kind: Kind, operand: &Operand) -> bool
        ensures { result ≡ moves_into (declared_in self.now) kind operand.now }
    {
        match operand {
            Operand::View(view) => is_same_kind(self.kind_of(view.array), kind),
            Operand::Literal(items) => fits_kind(kind, items),
        }
    }

    /// What the items of an array are; those of no array are values.
    pub fn kind_of(&self, array: u32) -> Kind
        ensures { result ≡ kind_of (declared_in self.now) array }
    {
        let arrays = self.arrays.as_slice();
        match arrays.get(array as usize) {
            Some(array) => array.kind,
            None => Kind::Str,
        }
    }
}

/// Whether a sort stands for an operand; a descriptor and a fill stand in the call itself.
fn is_operand(sort: Sort) -> bool
    ensures { result ≡ is_operand sort }
{
    match sort {
        Sort::View | Sort::Literal | Sort::Texts | Sort::Numbers => true,
        Sort::Fill | Sort::Descr => false,
    }
}

/// Whether an array of this kind holds numbers.
fn holds_numbers(kind: Kind) -> bool
    ensures { result ≡ holds_numbers kind }
{
    match kind {
        Kind::Plain(PlainKind::Int) => true,
        _ => false,
    }
}

/// Whether an array of this kind holds truth values.
fn holds_truths(kind: Kind) -> bool
    ensures { result ≡ holds_truths kind }
{
    match kind {
        Kind::Plain(PlainKind::Bool) => true,
        _ => false,
    }
}

/// Whether two kinds are the same, with the same width where they have one.
fn is_same_kind(a: Kind, b: Kind) -> bool
    ensures { result ≡ is_same_kind a b }
{
    match (a, b) {
        (Kind::Str, Kind::Str) => true,
        (Kind::Plain(p), Kind::Plain(q)) => is_same_plain(p, q),
        _ => false,
    }
}

fn is_same_plain(p: PlainKind, q: PlainKind) -> bool
    ensures { result ≡ is_same_plain p q }
{
    match (p, q) {
        (PlainKind::Int, PlainKind::Int) => true,
        (PlainKind::Bool, PlainKind::Bool) => true,
        (PlainKind::Bytes(width), PlainKind::Bytes(other)) => width == other,
        (PlainKind::Fixed(width), PlainKind::Fixed(other)) => width == other,
        _ => false,
    }
}

/// Whether an array of this kind may hold items.
fn fits_kind(kind: Kind, items: &Items) -> bool
    ensures { result ≡ fits_kind kind items.now }
{
    match kind {
        Kind::Str => are_values(items),
        Kind::Plain(kind) => fits_plain(kind, items),
    }
}

fn fits_plain(kind: PlainKind, items: &Items) -> bool
    ensures { result ≡ fits_plain kind items.now }
{
    match (kind, items) {
        (PlainKind::Int, Items::Ints(_)) => true,
        (PlainKind::Bool, Items::Flags(_)) => true,
        (PlainKind::Bytes(width), Items::Bytes(rows)) => bytes_within(width, rows.as_slice()),
        (PlainKind::Fixed(width), Items::Units(rows)) => units_within(width, rows.as_slice()),
        _ => false,
    }
}

/// Whether no text is wider.
fn bytes_within(width: u16, rows: &[ByteList]) -> bool
    ensures { result ≡ are_within width rows.now }
{
    rows.iter().all(|row| row.len() <= usize::from(width))
}

fn units_within(width: u16, rows: &[UnitList]) -> bool
    ensures { result ≡ are_within width rows.now }
{
    rows.iter().all(|row| row.len() <= usize::from(width))
}

/// Whether items are values.
fn are_values(items: &Items) -> bool
    ensures { result ≡ are_values items.now }
{
    items.values().is_some()
}

/// Whether items are texts of which none is missing.
pub fn are_texts(items: &Items) -> bool
    ensures { result ≡ are_texts items.now }
{
    match items {
        Items::Values(values) => !any_missing(values),
        Items::Ints(_) | Items::Flags(_) | Items::Bytes(_) | Items::Units(_) => false,
    }
}

/// Whether items are numbers.
fn are_numbers(items: &Items) -> bool
    ensures { result ≡ are_numbers items.now }
{
    match items {
        Items::Ints(_) => true,
        Items::Values(_) | Items::Flags(_) | Items::Bytes(_) | Items::Units(_) => false,
    }
}

/// Whether a value of a list is missing.
fn any_missing(values: &ValueList) -> bool
    ensures { result ≡ list_any is_missing values.now }
{
    !values.is_empty() && any_missing_in(values.as_slice())
}

fn any_missing_in(values: &[Value]) -> bool
    ensures { result ≡ list_any is_missing values.now }
{
    values.iter().any(|value| is_missing(value))
}

fn is_missing(value: &Value) -> bool
    ensures { result ≡ is_missing value.now }
{
    match value {
        Value::Missing => true,
        Value::Of(_) => false,
    }
}

/// The fill that a list is: the one code point of its one text.
pub fn fill_of(items: &Items) -> Option<char>
    ensures { result ≡ fill_of items.now }
{
    match items {
        Items::Values(values) => values_point(values),
        Items::Ints(_) | Items::Flags(_) | Items::Bytes(_) | Items::Units(_) => None,
    }
}

/// The one code point of one text.
fn values_point(values: &ValueList) -> Option<char>
    ensures { result ≡ values_point values.now }
{
    if values.len() != 1 {
        return None;
    }
    value_point(values.get(0)?)
}

fn value_point(value: &Value) -> Option<char>
    ensures { result ≡ value_point value.now }
{
    match value {
        Value::Missing => None,
        Value::Of(text) => point_of(text),
    }
}

fn point_of(text: &Text) -> Option<char>
    ensures { result ≡ point_of text.now }
{
    let (point, rest) = first_point(text.as_bytes())?;
    match first_point(rest) {
        None => Some(point),
        Some(_) => None,
    }
}

/// The call with this fill; with its own where a list is no fill.
pub fn filled(op: Op, fill: Option<char>) -> Op
    ensures { result ≡ filled op fill }
{
    match fill {
        Some(fill) => op.with_fill(fill),
        None => op,
    }
}
