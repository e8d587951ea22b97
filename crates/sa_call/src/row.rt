ghost use Rattle.std.specs.Prelude.{◌≡◌};
ghost use Rattle.std.specs.List.{list_any};
ghost use Rattle.std.specs.Option.{option_copied};
ghost use Rattle.sa_call.specs.Elements.{any_missing, item_is_missing};
ghost use Rattle.sa_call.specs.Forms.{number, text, text_if, place_in, text_at, number_at};

use sa_plain::Items;
use sa_text::{Text, Value};
use std::marker::Model;

/// What an element is computed of: the items of each operand, its place, and the text that stands for a
/// missing one. Contracts see them as the row of the definitions.
#[derive(Drop)]
pub(crate) struct Row<'a> {
    pub columns: &'a [&'a Items],
    pub at: usize,
    pub blank: &'a Text,
}

impl<'a> Model for Row<'a> {
    ghost use Rattle.std.specs.Prelude.{map};
    ghost use Rattle.sa_plain.specs.Items.{items_of};
    ghost use Rattle.sa_call.specs.Forms.{Row as TheRow};

    ghost Value = { TheRow };

    ghost view = { λ r. record { columns = map (λ c. items_of c.now) r.columns.now; at = r.at; blank = r.blank.now } };
}

impl<'a> Row<'a> {
    /// The text of the operand of a number, the blank one where it is missing or no text.
    pub fn text(&self, k: usize) -> &Text
        ensures { result.now ≡ text self.now k }
    {
        match self.columns.get(k) {
            Some(items) => text_at(items, self.at, self.blank),
            None => self.blank,
        }
    }

    /// The text of the operand of a number, none where there is no such operand.
    pub fn text_if(&self, k: usize) -> Option<&Text>
        ensures { option_copied result ≡ text_if self.now k }
    {
        match self.columns.get(k) {
            Some(items) => Some(text_at(items, self.at, self.blank)),
            None => None,
        }
    }

    /// The number of the operand of a number, 0 where it is no number.
    pub fn number(&self, k: usize) -> i64
        ensures { result ≡ number self.now k }
    {
        match self.columns.get(k) {
            Some(items) => number_at(items, self.at),
            None => 0,
        }
    }

    /// Whether an operand is missing.
    pub fn any_missing(&self) -> bool
        ensures { result ≡ any_missing self.now }
    {
        any_missing_at(self.columns, self.at)
    }
}

/// Whether one of these operands is missing.
fn any_missing_at(columns: &[&Items], at: usize) -> bool
    ensures { result ≡ list_any (λ items. item_is_missing items.now at) columns.now }
{
    columns.iter().any(|items| is_missing_at(items, at))
}

/// The place of an item that stands for an element; one item alone stands for all.
#[inline]
fn place_in(items: &Items, at: usize) -> usize
    ensures { result ≡ place_in items.now at }
{
    if items.len() == 1 { 0 } else { at }
}

/// The text of an item, the blank one where it is missing or no text.
#[inline]
fn text_at<'a>(items: &'a Items, at: usize, blank: &'a Text) -> &'a Text
    ensures { result.now ≡ text_at blank.now items.now at }
{
    let Items::Values(values) = items else {
        return blank;
    };
    match values.get(place_in(items, at)) {
        Some(Value::Of(text)) => text,
        Some(Value::Missing) => blank,
        None => blank,
    }
}

/// The number of an item, 0 where it is none.
#[inline]
fn number_at(items: &Items, at: usize) -> i64
    ensures { result ≡ number_at items.now at }
{
    let Items::Ints(numbers) = items else {
        return 0;
    };
    match numbers.get(place_in(items, at)) {
        Some(number) => *number,
        None => 0,
    }
}

/// Whether an item is missing.
#[inline]
pub(crate) fn is_missing_at(items: &Items, at: usize) -> bool
    ensures { result ≡ item_is_missing items.now at }
{
    let Items::Values(values) = items else {
        return items.len() <= place_in(items, at);
    };
    match values.get(place_in(items, at)) {
        Some(value) => value.is_missing(),
        None => true,
    }
}
