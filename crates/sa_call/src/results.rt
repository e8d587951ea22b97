ghost use Rattle.std.specs.Prelude.{◌≡◌, [], OnOk};
ghost use Rattle.sa_call.specs.Elements.{cell_item};
ghost use Rattle.sa_call.specs.Walks.{no_results, results_with, with_result};

use crate::cell::Cell;
use crate::form::Results;
use sa_base::Memory;
use sa_plain::{FlagList, IntList, Items};
use sa_text::ValueList;
use std::alloc::Global;

/// The results of a call so far.
#[derive(Drop)]
pub(crate) enum ResultList {
    Values(ValueList),
    Numbers(IntList),
    Flags(FlagList),
}

impl ResultList {
    /// No results yet. It takes no memory.
    pub fn new(alloc: Global, kind: Results) -> ResultList
        ensures { result ≡ no_results kind }
    {
        match kind {
            Results::Moved | Results::Texts => ResultList::Values(ValueList::new(alloc)),
            Results::Numbers => ResultList::Numbers(IntList::new(alloc)),
            Results::Flags => ResultList::Flags(FlagList::new(alloc)),
        }
    }

    /// Puts one more at the end.
    pub fn push(&mut self, cell: Cell) -> Result<(), Memory>
        ensures { OnOk result (self.new ≡ with_result self.old (cell_item cell)) }
    {
        match self {
            ResultList::Values(values) => match values.push(cell.into_value()) {
                Ok(()) => Ok(()),
                Err(_) => Err(Memory),
            },
            ResultList::Numbers(numbers) => match numbers.push(cell.number()) {
                Ok(()) => Ok(()),
                Err(_) => Err(Memory),
            },
            ResultList::Flags(flags) => match flags.push(cell.flag()) {
                Ok(()) => Ok(()),
                Err(_) => Err(Memory),
            },
        }
    }

    /// The results as items.
    pub fn into_items(self) -> Items
        ensures { result ≡ results_with self [] }
    {
        match self {
            ResultList::Values(values) => Items::Values(values),
            ResultList::Numbers(numbers) => Items::Ints(numbers),
            ResultList::Flags(flags) => Items::Flags(flags),
        }
    }
}
