ghost use Rattle.std.specs.Prelude.{◌≤◌};

use super::*;
use sa_base::Memory;
use sa_text::{Text, Value};
use std::alloc::Global;
use std::test::Fail;

/// A missing value and a text.
fn two_items(alloc: Global) -> Result<Items, Memory> {
    let text = Text::from_utf8(alloc, b"abc")?;
    let mut values = ValueList::new(alloc);
    values.push(Value::Missing)?;
    values.push(Value::Of(text))?;
    Ok(Items::Values(values))
}

/// What is written of items.
fn written(alloc: Global, items: &Items) -> Result<Vec<u8>, Memory> {
    let mut out = Vec::new(alloc);
    push_items(&mut out, items)?;
    Ok(out)
}

#[test]
fn items_have_their_length_weight_and_values(rt: HostRuntime) -> Result<(), Fail> {
    let empty = Items::Values(ValueList::new(rt.alloc()));
    assert!(rt; empty.is_empty());
    let items = two_items(rt.alloc())?;
    assert_eq!(rt; items.len(), 2);
    assert!(rt; !items.is_empty());
    assert!(rt; items.values().is_some_and(|values| values.len() == 2));
    assert!(rt; items.len() <= 8192);
    assert_eq!(rt; items.weight(), 35);
    Ok(())
}

#[test]
fn items_are_shared_and_copied(rt: HostRuntime) -> Result<(), Fail> {
    let alloc = rt.alloc();
    let mut items = two_items(alloc)?;
    items.share(alloc)?;
    let copy = items.copy(alloc)?;
    assert_eq!(rt;
        written(alloc, &copy)?.as_slice(),
        b"(na,\"abc\")".as_slice()
    );
    Ok(())
}

#[test]
fn one_value_is_stretched_and_written(rt: HostRuntime) -> Result<(), Fail> {
    let alloc = rt.alloc();
    let one = ValueList::from_vec(vec![in alloc; Value::Missing]?);
    for (count, bytes) in [(0, b"()".as_slice()), (1, b"(na)"), (3, b"(na,na,na)")] {
        let items = Items::Values(one.stretched(alloc, count)?);
        assert_eq!(rt; items.len(), count);
        assert_eq!(rt; written(alloc, &items)?.as_slice(), bytes, "of {count}");
    }
    Ok(())
}

#[test]
fn numbers_are_weighed_and_written(rt: HostRuntime) -> Result<(), Fail> {
    let alloc = rt.alloc();
    let numbers = [0, -1, 10, i64::MIN, i64::MAX];
    let items = Items::Ints(IntList::from_slice(alloc, &numbers)?);
    assert!(rt; items.values().is_none());
    assert!(rt; items.len() == 5 && items.weight() == 80);
    let bytes = b"(0,-1,10,-9223372036854775808,9223372036854775807)".as_slice();
    assert_eq!(rt; written(alloc, &items.copy(alloc)?)?.as_slice(), bytes);
    Ok(())
}

/// Lists of bytes as a list of byte texts.
fn byte_texts(alloc: Global, texts: &[&[u8]]) -> Result<Items, Fail> {
    let mut rows = ByteLists::new(alloc);
    for text in texts {
        if text.len() <= 256 {
            rows.push(ByteList::from_slice(alloc, text)?)?;
        }
    }
    Ok(Items::Bytes(rows))
}

/// Lists of units as a list of unicode texts.
fn unit_texts(alloc: Global, texts: &[&[u32]]) -> Result<Items, Fail> {
    let mut rows = UnitLists::new(alloc);
    for text in texts {
        if text.len() <= 256 {
            rows.push(UnitList::from_slice(alloc, text)?)?;
        }
    }
    Ok(Items::Units(rows))
}

#[test]
fn flags_bytes_and_units_are_weighed_and_written(rt: HostRuntime) -> Result<(), Fail> {
    let alloc = rt.alloc();
    let flags = Items::Flags(FlagList::from_slice(alloc, &[true, false])?);
    let bytes = byte_texts(alloc, &[&[0, 0xff, 0x1a], &[]])?;
    let units = unit_texts(alloc, &[&[0x68, 0xe9], &[0xd800, 0, 0x10ffff, u32::MAX]])?;
    let none = unit_texts(alloc, &[&[]])?;
    let rows = [
        (flags, 2, 32, b"(true,false)".as_slice()),
        (bytes, 2, 35, b"(hex:00ff1a,hex:)"),
        (units, 2, 56, b"(units:68.e9,units:d800.0.10ffff.ffffffff)"),
        (none, 1, 16, b"(units:)"),
    ];
    for (items, count, weight, bytes) in &rows {
        assert!(rt; items.values().is_none() && items.len() == *count && items.len() <= 8192);
        assert_eq!(rt; items.weight(), *weight);
        assert_eq!(rt; written(alloc, &items.copy(alloc)?)?.as_slice(), *bytes);
    }
    Ok(())
}

/// What is written of items that are stretched to a count and widened to a width.
fn held(alloc: Global, items: &Items, count: usize, width: u16) -> Result<Vec<u8>, Memory>
    requires { width ≤ 256 }
{
    let wide = items.stretched(alloc, count)?.widened(alloc, width)?;
    written(alloc, &wide)
}

#[test]
fn items_are_stretched_and_widened(rt: HostRuntime) -> Result<(), Fail> {
    let alloc = rt.alloc();
    let bytes = held(alloc, &byte_texts(alloc, &[&[0xff]])?, 2, 3)?;
    assert_eq!(rt; bytes.as_slice(), b"(hex:ff0000,hex:ff0000)".as_slice());
    let units = held(alloc, &unit_texts(alloc, &[&[0x68, 0xe9], &[]])?, 5, 1)?;
    assert_eq!(rt; units.as_slice(), b"(units:68.e9,units:0)".as_slice());
    let one = Items::Ints(IntList::from_slice(alloc, &[-3])?);
    assert_eq!(rt;
        held(alloc, &one, 3, 8)?.as_slice(),
        b"(-3,-3,-3)".as_slice()
    );
    Ok(())
}

#[test]
fn each_item_has_a_weight(rt: HostRuntime) -> Result<(), Fail> {
    let alloc = rt.alloc();
    let texts = two_items(alloc)?;
    if texts.len() == 2 {
        assert!(rt; texts.weight_at(0) == 16 && texts.weight_at(1) == 19);
    }
    let units = unit_texts(alloc, &[&[0x68, 0xe9]])?;
    if units.len() == 1 {
        assert_eq!(rt; units.weight_at(0), 24);
    }
    Ok(())
}

#[test]
fn a_new_plain_array_is_of_zeros(rt: HostRuntime) -> Result<(), Fail> {
    let alloc = rt.alloc();
    let bytes = Plain::new(alloc, PlainKind::Bytes(4), 2)?;
    let units = Plain::new(alloc, PlainKind::Fixed(2), 1)?;
    let ints = Plain::new(alloc, PlainKind::Int, 2)?;
    let flags = Plain::new(alloc, PlainKind::Bool, 2)?;
    assert!(rt; ints.kind() == PlainKind::Int && flags.kind() == PlainKind::Bool);
    assert!(rt; bytes.kind() == PlainKind::Bytes(4) && units.kind() == PlainKind::Fixed(2));
    assert!(rt; bytes.len() == 2 && units.len() == 1 && ints.len() == 2 && flags.len() == 2);
    let rows = [
        (
            bytes.items_at(alloc, &[0, 1])?,
            b"(hex:00000000,hex:00000000)".as_slice(),
        ),
        (units.items_at(alloc, &[0])?, b"(units:0.0)"),
        (ints.items_at(alloc, &[1])?, b"(0)"),
        (flags.items_at(alloc, &[0, 1])?, b"(false,false)"),
    ];
    for (items, bytes) in &rows {
        assert_eq!(rt; written(alloc, items)?.as_slice(), *bytes);
    }
    Ok(())
}

#[test]
fn items_are_put_at_places_and_padded(rt: HostRuntime) -> Result<(), Fail> {
    let alloc = rt.alloc();
    let mut units = Plain::new(alloc, PlainKind::Fixed(2), 3)?;
    let mut texts = UnitLists::new(alloc);
    texts.push(UnitList::from_slice(alloc, &[0x68, 0xe9])?)?;
    texts.push(UnitList::from_slice(alloc, &[0xd800])?)?;
    units.put_items(&[2, 0], &Items::Units(texts));
    let found = units.items_at(alloc, &[0, 1, 2, 2])?;
    let wanted = b"(units:d800.0,units:0.0,units:68.e9,units:68.e9)".as_slice();
    assert_eq!(rt; written(alloc, &found)?.as_slice(), wanted);
    let mut ints = Plain::new(alloc, PlainKind::Int, 2)?;
    let numbers = IntList::from_slice(alloc, &[5, -7])?;
    ints.put_items(&[1, 1], &Items::Ints(numbers));
    let found = ints.items_at(alloc, &[0, 1])?;
    assert_eq!(rt; written(alloc, &found)?.as_slice(), b"(0,-7)".as_slice());
    Ok(())
}

#[test]
fn one_item_is_put_and_read(rt: HostRuntime) -> Result<(), Fail> {
    let alloc = rt.alloc();
    let mut ints = Plain::new(alloc, PlainKind::Int, 2)?;
    ints.put_int(1, i64::MIN);
    assert_eq!(rt; ints.get_int(1), i64::MIN);
    let mut flags = Plain::new(alloc, PlainKind::Bool, 2)?;
    flags.put_flag(0, true);
    assert!(rt; flags.get_flag(0) && !flags.get_flag(1));
    let mut bytes = Plain::new(alloc, PlainKind::Bytes(2), 2)?;
    bytes.put_bytes(1, b"h");
    assert_eq!(rt; bytes.get_bytes(1), b"h\0".as_slice());
    let mut units = Plain::new(alloc, PlainKind::Fixed(2), 2)?;
    units.put_units(0, &[0xd800, 0xe9]);
    assert_eq!(rt; units.get_units(0), [0xd800, 0xe9].as_slice());
    Ok(())
}
