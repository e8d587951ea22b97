ghost use Rattle.std.specs.Prelude.{◌≡◌, ◌≤◌, map, is_some, Some, true};
ghost use Rattle.sa_plain.specs.Items.{items_of};
ghost use Rattle.sa_call.specs.Decides.{results_as};
ghost use Rattle.sa_call.specs.Elements.{elements, gathered};
ghost use Rattle.sa_call.specs.Forms.{entry};
ghost use Rattle.sa_call.specs.Limits.{most_weight};
ghost use Rattle.sa_call.specs.Walks.{GivesResults, computed_items, halt_at};

use crate::element::{Setting, Stop, result_at};
use crate::reply::Refusal;
use crate::results::ResultList;
use crate::row::Row;
use sa_plain::Items;
use std::alloc::Global;

/// Why a call has no results.
#[derive(Clone, Copy, Debug, PartialEq, Eq)]
pub(crate) enum Halt {
    /// There is no memory for them.
    Memory,
    /// The call is refused, for this reason at this element.
    Refused(Refusal, u32),
}

/// The results of a call of a group of missing values, one for each of so many elements, behind operands of
/// this weight; or the first refusal.
pub(crate) fn walk<'x>(
    alloc: Global,
    setting: &'x Setting,
    columns: &'x [&'x Items],
    weight: u64,
    count: u32,
) -> Result<Items, Halt>
    requires computes { is_some (entry setting.now.op).group ≡ true }
    requires light { weight ≤ most_weight }
    ensures { GivesResults result (results_as (computed_items (entry setting.now.op).results) (gathered setting.now.forbidden weight 0 (elements (record { miss = Some setting.now.miss; blank = setting.now.blank }) setting.now.op (map (λ c. items_of c.now) columns.now) count))) }
{
    let mut results = ResultList::new(alloc, setting.op.form().results);
    let mut weight = weight;
    for at in 0..count {
        let row = Row {
            columns,
            at: at as usize,
            blank: &setting.blank,
        };
        let cell = match result_at(alloc, setting, &row, weight) {
            Ok(cell) => cell,
            Err(stop) => return Err(stop.at(at)),
        };
        weight += cell.weight();
        match results.push(cell) {
            Ok(()) => {}
            Err(_) => return Err(Halt::Memory),
        }
    }
    Ok(results.into_items())
}

impl Stop {
    /// The same of a call, of which this is the element at a place.
    fn at(self, at: u32) -> Halt
        ensures { result ≡ halt_at self at }
    {
        match self {
            Stop::Memory => Halt::Memory,
            Stop::Refused(cause) => Halt::Refused(cause, at),
        }
    }
}
