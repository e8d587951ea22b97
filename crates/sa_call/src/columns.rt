ghost use Rattle.std.specs.Prelude.{◌≡◌, ◌≤◌, ◌<◌, ◌*◌, length, map, sum_by, IfOk};
ghost use Rattle.std.specs.List.{All};
ghost use Rattle.sa_plain.specs.Items.{count_of, items_weight};
ghost use Rattle.sa_call.specs.Columns.{columns_read};
ghost use Rattle.sa_call.specs.Told.{view_counts};

use crate::call::Operand;
use sa_base::Memory;
use sa_plain::Items;
use std::alloc::Global;

/// The items of each operand, in order: a literal's own, and for a view the next list that was read.
pub fn columns<'a>(
    alloc: Global,
    operands: &'a [Operand],
    lists: &'a [Items],
) -> Result<Vec<&'a Items>, Memory>
    requires { map count_of lists.now ≡ view_counts operands.now }
    ensures { IfOk result (λ columns. map (λ c. c.now) columns.items ≡ columns_read operands.now lists.now) }
{
    let mut columns = Vec::with_capacity(alloc, operands.len())?;
    let mut next = 0;
    for operand in operands {
        match operand {
            Operand::Literal(items) => columns.push(items)?,
            Operand::View(_) => {
                columns.push(&lists[next])?;
                next += 1;
            }
        }
    }
    Ok(columns)
}

/// What columns weigh together, each as it is.
pub fn columns_weight(columns: &[&Items]) -> u64
    requires few { length columns.now ≤ 8 }
    requires short { All (λ c. count_of c.now ≤ 8192) columns.now }
    ensures { result ≡ sum_by items_weight (map (λ c. c.now) columns.now) }
{
    let mut weight = 0u64;
    for column in columns {
        weight += column.weight();
    }
    weight
}
