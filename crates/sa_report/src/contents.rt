ghost use Rattle.std.specs.Prelude.{◌≡◌, ◌++◌, ◌∷◌, ◌<◌, [], length, decimal, slice_index, slice_index_or, true, IfOk, OnOk, Some};
ghost use Rattle.std.specs.List.{flat_map, join_by, range_with_len};
ghost use Rattle.sa_alloc.specs.Copies.{value_seen, IsSeenText};
ghost use Rattle.sa_plain.specs.Written.{list_bytes, value_bytes};
ghost use Rattle.sa_plain.specs.declared.items.Items.TheVariants.{Values};
ghost use Rattle.sa_call.specs.Decls.{IsDeclared};
ghost use Rattle.sa_loop.specs.Runs.{strings_in, world_of};
ghost use Rattle.sa_script.specs.Sound.{IsSound};
ghost use Rattle.sa_report.specs.Plays.{contents_at, contents_of, plain_list, stats_in};
ghost use Rattle.sa_report.specs.Reports.{array_line, array_lines, stats_line, stats_lines};

use crate::writing::push_bytes;
use sa_alloc::{Seen, Store};
use sa_base::{Memory, Stats};
use sa_call::{Decls, home_of, is_strings_array};
use sa_lines::{push_decimal, push_quoted};
use sa_loop::{Gathered, index_at_home};
use sa_plain::{Plain, push_items};
use sa_script::Script;
use std::alloc::Global;

/// Writes the arrays, each with its name and its contents, as they lie in the stores and in plain arrays.
pub fn push_arrays<H: Gathered>(
    alloc: Global,
    out: &mut Vec<u8>,
    script: &Script,
    from: &H,
) -> Result<(), Memory>
    requires decls { H.declared from.now ≡ script.now.decls }
    requires sound { IsSound script.now.decls script.now.names script.now.tasks }
    ensures { OnOk result (out.new.items ≡ out.old.items ++ array_lines script.now.names.arrays (contents_of script.now.decls (world_of (H.holds from.now)))) }
{
    let decls = script.decls();
    for k in 0..decls.arrays().len() {
        let Some(name) = script.names().array(k as u32) else {
            unreachable!()
        };
        push_array(alloc, out, name, decls, from, k as u32)?;
    }
    Ok(())
}

/// Writes the line of an array.
fn push_array<H: Gathered>(
    alloc: Global,
    out: &mut Vec<u8>,
    name: &str,
    decls: &Decls,
    from: &H,
    array: u32,
) -> Result<(), Memory>
    requires decls { H.declared from.now ≡ decls.now }
    requires declared { IsDeclared decls.now }
    requires there { array < length decls.now.arrays }
    ensures { OnOk result (out.new.items ≡ out.old.items ++ array_line name.now (contents_at decls.now (world_of (H.holds from.now)) array)) }
{
    push_bytes(out, b"array ")?;
    push_bytes(out, name.as_bytes())?;
    push_bytes(out, b" ")?;
    push_contents(alloc, out, decls, from, array)?;
    push_bytes(out, b"\n")
}

/// Writes the contents of an array as a list.
fn push_contents<H: Gathered>(
    alloc: Global,
    out: &mut Vec<u8>,
    decls: &Decls,
    from: &H,
    array: u32,
) -> Result<(), Memory>
    requires decls { H.declared from.now ≡ decls.now }
    requires declared { IsDeclared decls.now }
    requires there { array < length decls.now.arrays }
    ensures { OnOk result (out.new.items ≡ out.old.items ++ list_bytes (contents_at decls.now (world_of (H.holds from.now)) array)) }
{
    let home = home_of(decls, array);
    let index = index_at_home(decls, array);
    if is_strings_array(decls, array) {
        let Some(store) = from.store(home) else {
            unreachable!()
        };
        push_strings(out, store, index)
    } else {
        match from.plain(home, index) {
            Some(plain) => push_plain(alloc, out, plain),
            None => push_bytes(out, b"()"),
        }
    }
}

/// Writes the items of a plain array as a list.
fn push_plain(alloc: Global, out: &mut Vec<u8>, plain: &Plain) -> Result<(), Memory>
    ensures { OnOk result (out.new.items ≡ out.old.items ++ list_bytes (plain_list plain.now)) }
{
    let places = places_below(alloc, plain.len())?;
    let items = plain.items_at(alloc, places.as_slice())?;
    push_items(out, &items)
}

/// The places of an array of this length, in order.
fn places_below(alloc: Global, len: u32) -> Result<Vec<u32>, Memory>
    ensures { IfOk result (λ places. places.items ≡ range_with_len 0 len) }
{
    let mut places = Vec::with_capacity(alloc, len as usize)?;
    for place in 0..len {
        places.push(place)?;
    }
    Ok(places)
}

/// Writes the values of a strings array of a store as a list.
fn push_strings(out: &mut Vec<u8>, store: &Store, index: u32) -> Result<(), Memory>
    requires { index < length store.now.contents.layout.lengths }
    ensures { OnOk result (out.new.items ≡ out.old.items ++ list_bytes (Values (slice_index_or (strings_in store.now.contents.layout) index []))) }
{
    push_bytes(out, b"(")?;
    push_entries(out, store, index)?;
    push_bytes(out, b")")
}

/// Writes the values of an array's entries with a comma between two of them.
fn push_entries(out: &mut Vec<u8>, store: &Store, index: u32) -> Result<(), Memory>
    requires { index < length store.now.contents.layout.lengths }
    ensures { OnOk result (out.new.items ≡ out.old.items ++ join_by value_bytes (44 ∷ []) (slice_index_or (strings_in store.now.contents.layout) index [])) }
{
    let count = store.lengths()[index as usize];
    if count == 0 {
        return Ok(());
    }
    push_seen(out, store.load(index, 0))?;
    for place in 1..count {
        push_bytes(out, b",")?;
        push_seen(out, store.load(index, place))?;
    }
    Ok(())
}

/// Writes a value that was seen, from where it lies.
fn push_seen(out: &mut Vec<u8>, seen: Seen<'_>) -> Result<(), Memory>
    requires { IsSeenText seen }
    ensures { OnOk result (out.new.items ≡ out.old.items ++ value_bytes (value_seen seen.entry)) }
{
    match seen {
        Seen::Missing => push_bytes(out, b"na"),
        Seen::Bytes(bytes) => push_quoted(out, bytes),
    }
}

/// Writes the statistics of the descriptors' allocators, each behind its descriptor's name.
pub fn push_all_stats<H: Gathered>(
    out: &mut Vec<u8>,
    script: &Script,
    from: &H,
) -> Result<(), Memory>
    requires decls { H.declared from.now ≡ script.now.decls }
    requires sound { IsSound script.now.decls script.now.names script.now.tasks }
    ensures { OnOk result (out.new.items ≡ out.old.items ++ stats_lines script.now.names.descrs (stats_in script.now.decls (world_of (H.holds from.now)))) }
{
    for k in 0..script.decls().descrs().len() {
        let Some(name) = script.names().descr(k as u8) else {
            unreachable!()
        };
        let Some(store) = from.store(k as u8) else {
            unreachable!()
        };
        push_stats(out, name, &store.stats())?;
    }
    Ok(())
}

/// Writes the line of a descriptor's statistics.
fn push_stats(out: &mut Vec<u8>, name: &str, stats: &Stats) -> Result<(), Memory>
    ensures { OnOk result (out.new.items ≡ out.old.items ++ stats_line name.now stats.now) }
{
    push_bytes(out, b"stats ")?;
    push_bytes(out, name.as_bytes())?;
    push_figure(out, b" cursor ", stats.cursor)?;
    push_figure(out, b" live ", stats.live)?;
    push_figure(out, b" dead ", stats.dead)?;
    push_figure(out, b" outside ", stats.outside)?;
    push_bytes(out, b"\n")
}

/// Writes a word, with the spaces around it, and a number.
fn push_figure(out: &mut Vec<u8>, word: &[u8], number: u64) -> Result<(), Memory>
    ensures { OnOk result (out.new.items ≡ out.old.items ++ (word.now ++ decimal number)) }
{
    push_bytes(out, word)?;
    push_decimal(out, number)
}
