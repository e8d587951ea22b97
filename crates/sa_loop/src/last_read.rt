ghost use Rattle.std.specs.Prelude.{◌≡◌, slice_index_or, Some, None, IfSome};
ghost use Rattle.sa_loop.specs.LastReads.{placed};

use sa_call::View;
use sa_text::ValueList;

/// A view of an array, and the items that were read or put there.
#[derive(Debug, Drop)]
pub struct LastRead {
    pub view: View,
    pub list: ValueList,
}

/// What was last read or put of each array, by its number; none where nothing is known.
pub type LastReads = Vec<Option<LastRead>>;

/// The items of a view, where it is the one that was last read or written of its array.
pub(crate) fn last_list<'a>(lasts: &'a [Option<LastRead>], view: &View) -> Option<&'a ValueList>
    ensures { IfSome result (λ list. slice_index_or lasts.now view.now.array None ≡ Some (record { view = view.now; list = list.now })) }
{
    match lasts.get(view.array as usize) {
        Some(Some(last)) if last.view == *view => Some(&last.list),
        _ => None,
    }
}

/// Puts what was read of an array in place of what was known of it.
pub(crate) fn place(lasts: &mut LastReads, array: u32, last: Option<LastRead>)
    ensures { lasts.new.items ≡ placed lasts.old.items array last }
{
    let array = array as usize;
    if array < lasts.len() {
        lasts[array] = last;
    }
}
