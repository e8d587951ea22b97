ghost use Rattle.std.specs.Prelude.{◌≡◌, [], Some, option_map, IfOk, OnOk, length};
ghost use Rattle.std.specs.List.{AllByRecursion};
ghost use Rattle.sa_script.specs.FixedTexts.{IsRow};
ghost use Rattle.sa_script.specs.Items.{bytes_at, flag_at, further_at, item_at, items_at, kind_begun, list_as, item_kind, list_of, number_at, one_more, units_at};
ghost use Rattle.sa_plain.specs.declared.items.Items.TheVariants.{Values, Ints, Flags, Bytes, Units};

use crate::item::Item;
use crate::item_kind::ItemKind;
use sa_base::{Memory, Sequence};
use sa_lines::first;
use sa_plain::{ByteList, Items, Rows, UnitList, ValueList};
use sa_text::Value;
use std::alloc::Global;

/// The most items of one literal list.
const MOST_ITEMS: usize = 8192;

/// One more item of a list, which is none once an item passed a limit or there are more items than a list
/// may have.
#[inline(always)]
fn one_more<T: Drop>(so_far: &mut Option<Sequence<T>>, item: Option<T>) -> Result<(), Memory>
    ensures { OnOk result (so_far.new ≡ one_more so_far.old item) }
{
    let Some(items) = so_far else {
        return Ok(());
    };
    let Some(item) = item else {
        *so_far = None;
        return Ok(());
    };
    if items.len() >= MOST_ITEMS {
        *so_far = None;
        return Ok(());
    }
    match items.push(item) {
        Ok(()) => Ok(()),
        Err((memory, _)) => Err(memory),
    }
}

/// Reads one more item of a list, and answers the byte behind it and what follows that.
#[inline(always)]
fn further_at<'a, T: Item>(
    alloc: Global,
    scratch: &mut Vec<u8>,
    so_far: &mut Option<Sequence<T>>,
    bytes: &'a [u8],
) -> Result<Option<(u8, &'a [u8])>, Memory>
    ensures { IfOk result (λ r. option_map (λ x. (so_far.new, x.0, x.1.now)) r ≡ further_at T.at so_far.old bytes.now) }
{
    let Some((item, behind)) = T::read(alloc, scratch, bytes)? else {
        return Ok(None);
    };
    let Some((byte, rest)) = first(behind) else {
        return Ok(None);
    };
    one_more(so_far, item)?;
    Ok(Some((byte, rest)))
}

/// Reads items behind an opening bracket, and what follows the closing one. None inside where an
/// item passes a limit or there are too many.
fn items_at<'a, T: Item>(
    alloc: Global,
    scratch: &mut Vec<u8>,
    bytes: &'a [u8],
) -> Result<Option<(Option<Sequence<T>>, &'a [u8])>, Memory>
    ensures { IfOk result (λ r. option_map (λ x. (x.0, x.1.now)) r ≡ items_at T.at (length bytes.now) (Some []) bytes.now) }
{
    let mut so_far = Some(Sequence::new(alloc));
    let mut rest = bytes;
    'items: for _ in 0..bytes.len() {
        let Some((byte, others)) = further_at(alloc, scratch, &mut so_far, rest)? else {
            return Ok(None);
        };
        if byte == b')' {
            return Ok(Some((so_far, others)));
        }
        if byte != b',' {
            return Ok(None);
        }
        rest = others;
    }
    Ok(None)
}

/// Reads a token that is one item, or a list of items in brackets. The outer none is no such list, the
/// inner none a list that passes a limit.
fn list_as<T: Item>(
    alloc: Global,
    scratch: &mut Vec<u8>,
    token: &[u8],
) -> Result<Option<Option<Sequence<T>>>, Memory>
    ensures { IfOk result (λ r. r ≡ list_as T.at token.now) }
{
    let Some((byte, others)) = first(token) else {
        return Ok(None);
    };
    if byte == b'(' {
        return match items_at(alloc, scratch, others)? {
            Some((items, [])) => Ok(Some(items)),
            _ => Ok(None),
        };
    }
    match T::read(alloc, scratch, token)? {
        Some((item, [])) => {
            let mut list = Some(Sequence::new(alloc));
            one_more(&mut list, item)?;
            Ok(Some(list))
        }
        _ => Ok(None),
    }
}

/// Reads a token that is a list: one item, or items in brackets, of one kind. The outer none is no list,
/// the inner none a list that passes a limit.
pub fn list_of(
    alloc: Global,
    scratch: &mut Vec<u8>,
    token: &[u8],
) -> Result<Option<Option<Items>>, Memory>
    ensures { IfOk result (λ r. r ≡ list_of token.now) }
{
    match item_kind(token) {
        ItemKind::Values => value_list(alloc, scratch, token),
        ItemKind::Numbers => number_list(alloc, scratch, token),
        ItemKind::Flags => flag_list(alloc, scratch, token),
        ItemKind::Bytes => byte_lists(alloc, scratch, token),
        ItemKind::Units => unit_lists(alloc, scratch, token),
    }
}

/// What the items of a list are, by the first byte of its first item.
fn item_kind(token: &[u8]) -> ItemKind
    ensures { result ≡ item_kind token.now }
{
    match first(token) {
        Some((b'(', rest)) => kind_begun(rest),
        _ => kind_begun(token),
    }
}

/// What an item is, by its first byte.
fn kind_begun(bytes: &[u8]) -> ItemKind
    ensures { result ≡ kind_begun bytes.now }
{
    match first(bytes) {
        Some((b'"' | b'n', _)) => ItemKind::Values,
        Some((b't' | b'f', _)) => ItemKind::Flags,
        Some((b'h', _)) => ItemKind::Bytes,
        Some((b'u', _)) => ItemKind::Units,
        _ => ItemKind::Numbers,
    }
}

/// A list of texts and `na`.
fn value_list(
    alloc: Global,
    scratch: &mut Vec<u8>,
    token: &[u8],
) -> Result<Option<Option<Items>>, Memory>
    ensures { IfOk result (λ r. r ≡ option_map (λ items. option_map Values items) (list_as item_at token.now)) }
{
    match list_as::<Value>(alloc, scratch, token)? {
        None => Ok(None),
        Some(None) => Ok(Some(None)),
        Some(Some(values)) => {
            let values = ValueList::from_vec(values.into_vec());
            Ok(Some(Some(Items::Values(values))))
        }
    }
}

/// A list of numbers.
fn number_list(
    alloc: Global,
    scratch: &mut Vec<u8>,
    token: &[u8],
) -> Result<Option<Option<Items>>, Memory>
    ensures { IfOk result (λ r. r ≡ option_map (λ items. option_map Ints items) (list_as number_at token.now)) }
{
    match list_as::<i64>(alloc, scratch, token)? {
        None => Ok(None),
        Some(None) => Ok(Some(None)),
        Some(Some(numbers)) => Ok(Some(Some(Items::Ints(numbers)))),
    }
}

/// A list of truth values.
fn flag_list(
    alloc: Global,
    scratch: &mut Vec<u8>,
    token: &[u8],
) -> Result<Option<Option<Items>>, Memory>
    ensures { IfOk result (λ r. r ≡ option_map (λ items. option_map Flags items) (list_as flag_at token.now)) }
{
    match list_as::<bool>(alloc, scratch, token)? {
        None => Ok(None),
        Some(None) => Ok(Some(None)),
        Some(Some(flags)) => Ok(Some(Some(Items::Flags(flags)))),
    }
}

/// A list of byte texts.
fn byte_lists(
    alloc: Global,
    scratch: &mut Vec<u8>,
    token: &[u8],
) -> Result<Option<Option<Items>>, Memory>
    ensures { IfOk result (λ r. r ≡ option_map (λ items. option_map Bytes items) (list_as bytes_at token.now)) }
{
    match list_as::<ByteList>(alloc, scratch, token)? {
        None => Ok(None),
        Some(None) => Ok(Some(None)),
        Some(Some(texts)) => {
            let rows = rows_of(alloc, texts)?;
            Ok(Some(Some(Items::Bytes(rows))))
        }
    }
}

/// A list of unicode texts.
fn unit_lists(
    alloc: Global,
    scratch: &mut Vec<u8>,
    token: &[u8],
) -> Result<Option<Option<Items>>, Memory>
    ensures { IfOk result (λ r. r ≡ option_map (λ items. option_map Units items) (list_as units_at token.now)) }
{
    match list_as::<UnitList>(alloc, scratch, token)? {
        None => Ok(None),
        Some(None) => Ok(Some(None)),
        Some(Some(texts)) => {
            let rows = rows_of(alloc, texts)?;
            Ok(Some(Some(Items::Units(rows))))
        }
    }
}

/// These texts, in order, of which none has more cells than a list may have.
fn rows_of<T: Drop>(alloc: Global, texts: Sequence<Sequence<T>>) -> Result<Rows<T>, Memory>
    requires { AllByRecursion IsRow texts }
    ensures { IfOk result (λ rows. rows ≡ texts) }
{
    let mut rows = Rows::new(alloc);
    for text in texts.into_vec() {
        if let Err((memory, _)) = rows.push(text) {
            return Err(memory);
        }
    }
    Ok(rows)
}
