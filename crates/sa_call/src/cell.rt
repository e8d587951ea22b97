ghost use Rattle.std.specs.Prelude.{◌≡◌, ◌+◌, ◌≤◌};
ghost use Rattle.sa_text.specs.Texts.{most_bytes};
ghost use Rattle.sa_text.specs.Values.{value_of};
ghost use Rattle.sa_plain.specs.Items.{item_weight};
ghost use Rattle.sa_call.specs.Elements.{cell_item, is_missing_item};
ghost use Rattle.sa_call.specs.Forms.{flag_in, number_in};

use sa_text::{Value as TextValue, value_weight};

/// What a call computes of one element.
#[derive(Drop)]
pub(crate) enum Cell {
    /// A text, or a missing value.
    Value(TextValue),
    Number(i64),
    Flag(bool),
}

impl Cell {
    /// Whether it is a missing value.
    pub fn is_missing(&self) -> bool
        ensures { result ≡ is_missing_item (cell_item self.now) }
    {
        match self {
            Cell::Value(value) => value.is_missing(),
            Cell::Number(_) | Cell::Flag(_) => false,
        }
    }

    /// What it weighs as an item.
    pub fn weight(&self) -> u64
        ensures weight { result ≡ item_weight (cell_item self.now) }
        ensures most { result ≤ 16 + most_bytes }
    {
        match self {
            Cell::Value(value) => value_weight(value),
            Cell::Number(_) | Cell::Flag(_) => 16,
        }
    }

    /// The value, a missing one where it is of another kind.
    pub fn into_value(self) -> TextValue
        ensures { result ≡ value_of (cell_item self) }
    {
        match self {
            Cell::Value(value) => value,
            Cell::Number(_) | Cell::Flag(_) => TextValue::Missing,
        }
    }

    /// The number, 0 where it is of another kind.
    pub fn number(&self) -> i64
        ensures { result ≡ number_in (cell_item self.now) }
    {
        match self {
            Cell::Number(number) => *number,
            Cell::Value(_) | Cell::Flag(_) => 0,
        }
    }

    /// The flag, false where it is of another kind.
    pub fn flag(&self) -> bool
        ensures { result ≡ flag_in (cell_item self.now) }
    {
        match self {
            Cell::Flag(flag) => *flag,
            Cell::Value(_) | Cell::Number(_) => false,
        }
    }
}
