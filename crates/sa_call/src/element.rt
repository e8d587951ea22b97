ghost use Rattle.std.specs.Prelude.{◌≡◌, ◌≤◌, ℕ, List, Some, is_some, true, IfOk};
ghost use Rattle.sa_text.specs.Making.{made, GivesText};
ghost use Rattle.sa_call.specs.Elements.{admitted, and_admitted, cell_item, element_of, GivesElement};
ghost use Rattle.sa_call.specs.Forms.{entry, kept_element, made_element, place_element, tells};
ghost use Rattle.sa_call.specs.Limits.{most_weight};

use crate::call::Op;
use crate::cell::Cell;
use crate::refusals::MOST_WEIGHT;
use crate::reply::Refusal;
use crate::row::Row;
use sa_base::Memory;
use sa_descr::Miss;
use sa_edit::{add, center, ljust, lstrip, multiply, rjust, rstrip, strip, zfill};
use sa_pred::{compare, is_alnum, is_alpha, is_decimal, is_space};
use sa_search::{count, ends, find, index, replace, rfind, rindex, starts};
use sa_text::{EditError, Text, Value};
use std::alloc::Global;

/// Why an element is not computed.
#[derive(Clone, Copy, Debug, PartialEq, Eq)]
pub(crate) enum Stop {
    /// There is no memory for it.
    Memory,
    /// It is refused.
    Refused(Refusal),
}

/// What the elements of a call of a group of missing values are computed by: the call, what comes of a missing text,
/// the text that stands for one, and whether the output forbids missing values.
#[derive(Drop)]
pub(crate) struct Setting {
    pub op: Op,
    pub miss: Miss,
    pub blank: Text,
    pub forbidden: bool,
}

/// The result at a row that follows results and operands of this weight.
pub(crate) fn result_at(
    alloc: Global,
    setting: &Setting,
    row: &Row<'_>,
    weight: u64,
) -> Result<Cell, Stop>
    requires computes { is_some (entry setting.now.op).group ≡ true }
    requires light { weight ≤ most_weight }
    ensures { GivesElement result (and_admitted setting.now.forbidden weight (element_of (record { miss = Some setting.now.miss; blank = setting.now.blank }) setting.now.op row.now)) }
{
    let cell = element(alloc, setting.op, setting.miss, row)?;
    admitted(setting.forbidden, weight, cell)
}

/// A result that follows this weight, if it is not refused.
fn admitted(forbidden: bool, weight: u64, cell: Cell) -> Result<Cell, Stop>
    requires { weight ≤ most_weight }
    ensures { GivesElement result (admitted forbidden weight (cell_item cell)) }
{
    if forbidden && cell.is_missing() {
        Err(Stop::Refused(Refusal::NoMissing))
    } else if weight + cell.weight() > MOST_WEIGHT {
        Err(Stop::Refused(Refusal::TooMuch))
    } else {
        Ok(cell)
    }
}

/// The element of a call at a row, which may have a missing text.
fn element(alloc: Global, op: Op, miss: Miss, row: &Row<'_>) -> Result<Cell, Stop>
    requires { is_some (entry op).group ≡ true }
    ensures { GivesElement result (element_of (record { miss = Some miss; blank = row.now.blank }) op row.now) }
{
    if !row.any_missing() {
        return computed(alloc, op, row);
    }
    match miss {
        Miss::Gone => Ok(Cell::Value(Value::Missing)),
        Miss::AsText => computed(alloc, op, row),
        Miss::No => Ok(Cell::Flag(false)),
        Miss::Yes => Ok(Cell::Flag(true)),
        Miss::Refuse => Err(Stop::Refused(Refusal::MissingValue)),
    }
}

/// What a call computes of a row.
fn computed(alloc: Global, op: Op, row: &Row<'_>) -> Result<Cell, Stop>
    requires { is_some (entry op).group ≡ true }
    ensures { GivesElement result ((entry op).element row.now) }
{
    match op {
        Op::Add => made(add(alloc, row.text(0), row.text(1))),
        Op::Multiply => made(multiply(alloc, row.text(0), row.number(1))),
        Op::Center(fill) => made(center(alloc, row.text(0), row.number(1), fill)),
        Op::Ljust(fill) => made(ljust(alloc, row.text(0), row.number(1), fill)),
        Op::Rjust(fill) => made(rjust(alloc, row.text(0), row.number(1), fill)),
        Op::Zfill => made(zfill(alloc, row.text(0), row.number(1))),
        Op::Strip => kept(strip(alloc, row.text(0), row.text_if(1))),
        Op::Lstrip => kept(lstrip(alloc, row.text(0), row.text_if(1))),
        Op::Rstrip => kept(rstrip(alloc, row.text(0), row.text_if(1))),
        Op::Replace => {
            let texts = (row.text(0), row.text(1), row.text(2));
            made(replace(alloc, texts.0, texts.1, texts.2, row.number(3)))
        }
        _ => told(op, row),
    }
}

/// The element that a text is, or that is too long.
fn made(text: Result<Text, EditError>) -> Result<Cell, Stop>
    ensures { (defined : List ℕ) → GivesText text (made defined) → GivesElement result (made_element defined) }
{
    match text {
        Ok(text) => Ok(Cell::Value(Value::Of(text))),
        Err(EditError::TooLong) => Err(Stop::Refused(Refusal::TooLong)),
        Err(EditError::Memory) => Err(Stop::Memory),
    }
}

/// The element that a text is.
fn kept(text: Result<Text, Memory>) -> Result<Cell, Stop>
    ensures { (defined : List ℕ) → IfOk text (λ t. t ≡ defined) → GivesElement result (kept_element defined) }
{
    match text {
        Ok(text) => Ok(Cell::Value(Value::Of(text))),
        Err(_) => Err(Stop::Memory),
    }
}

/// What a call that makes no texts computes of a row.
fn told(op: Op, row: &Row<'_>) -> Result<Cell, Stop>
    requires { tells (entry op).results ≡ true }
    ensures { GivesElement result ((entry op).element row.now) }
{
    let a = row.text(0);
    let b = row.text(1);
    let start = row.number(2);
    let end = row.number(3);
    match op {
        Op::Find => Ok(Cell::Number(find(a, b, start, end))),
        Op::Rfind => Ok(Cell::Number(rfind(a, b, start, end))),
        Op::Index => placed(index(a, b, start, end)),
        Op::Rindex => placed(rindex(a, b, start, end)),
        Op::Count => Ok(Cell::Number(count(a, b, start, end))),
        Op::Starts => Ok(Cell::Flag(starts(a, b, start, end))),
        Op::Ends => Ok(Cell::Flag(ends(a, b, start, end))),
        Op::Equal => Ok(Cell::Flag(compare(a, b).is_eq())),
        Op::NotEqual => Ok(Cell::Flag(compare(a, b).is_ne())),
        Op::Less => Ok(Cell::Flag(compare(a, b).is_lt())),
        Op::LessEqual => Ok(Cell::Flag(compare(a, b).is_le())),
        Op::Greater => Ok(Cell::Flag(compare(a, b).is_gt())),
        Op::GreaterEqual => Ok(Cell::Flag(compare(a, b).is_ge())),
        Op::IsAlpha => Ok(Cell::Flag(is_alpha(a))),
        Op::IsDecimal => Ok(Cell::Flag(is_decimal(a))),
        Op::IsAlnum => Ok(Cell::Flag(is_alnum(a))),
        Op::IsSpace => Ok(Cell::Flag(is_space(a))),
        _ => unreachable!(),
    }
}

/// The element that a place is; without one it is refused.
fn placed(place: Option<i64>) -> Result<Cell, Stop>
    ensures { GivesElement result (place_element place) }
{
    match place {
        Some(place) => Ok(Cell::Number(place)),
        None => Err(Stop::Refused(Refusal::NotFound)),
    }
}
