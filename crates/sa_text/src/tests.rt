use crate::{Text, TextError, Value, ValueList, stretched_at, stretched_len, values_weight};
use sa_base::Memory;
use std::alloc::Global;
use std::test::Fail;

/// Takes a value whose type may go to other threads, by value and by reference.
fn goes_to_threads<T: Send + Sync>(value: &T) -> &T {
    value
}

#[test]
fn long_texts(rt: HostRuntime) -> Result<(), Fail> {
    let alloc = rt.alloc();
    let longest = vec![in alloc; b'x'; 65_536]?;
    let text = Text::from_bytes(alloc, &longest)?;
    assert!(rt; text.as_bytes() == longest.as_slice());
    let copy = text.copy(alloc)?;
    assert!(rt; copy.as_bytes() == longest.as_slice());
    assert!(rt; copy.is_same(&text));
    assert!(rt; copy.into_bytes().as_slice() == longest.as_slice());
    for byte in [b'x', 0xff] {
        let bytes = vec![in alloc; byte; 65_537]?;
        assert_eq!(rt;
            Text::from_bytes(alloc, &bytes).err(),
            Some(TextError::TooLong),
            "of {byte}"
        );
    }
    Ok(())
}

#[test]
fn short_texts(rt: HostRuntime) -> Result<(), Fail> {
    let alloc = rt.alloc();
    for bytes in [[0xc3].as_slice(), &[b'x', 0xff], &[0xed, 0xa0, 0x80]] {
        assert_eq!(rt;
            Text::from_bytes(alloc, bytes).err(),
            Some(TextError::NotUtf8),
            "of {bytes:?}"
        );
    }
    let none = Text::from_bytes(alloc, b"")?;
    assert!(rt; none.as_bytes().is_empty());
    let some = Text::from_bytes(alloc, "é".as_bytes())?;
    assert!(rt; !some.is_same(&none));
    // two bytes of UTF-8, and one that is not behind them
    let front = Text::from_front(alloc, &[0xc3, 0xa9, 0xff], 2)?;
    assert!(rt; goes_to_threads(&front).is_same(&some));
    assert_eq!(rt; front.size(), 2);
    let whole = Text::from_utf8(alloc, "é".as_bytes())?;
    assert!(rt; whole.is_same(&some));
    Ok(())
}

#[test]
fn one_value_is_stretched(rt: HostRuntime) {
    let values = [Value::Missing, Value::Missing];
    let lengths = [
        stretched_len(5, &values[..0]),
        stretched_len(5, &values[..1]),
        stretched_len(5, &values),
    ];
    assert_eq!(rt; lengths, [0, 5, 2]);
    assert!(rt; goes_to_threads(stretched_at(5, &values[..1], 4)).is_missing());
    assert!(rt; stretched_at(5, &values, 1).is_missing());
}

#[test]
fn values_copy_and_weigh(rt: HostRuntime) -> Result<(), Fail> {
    let alloc = rt.alloc();
    let values = [
        Value::Missing,
        Value::Of(Text::from_bytes(alloc, "é".as_bytes())?),
    ];
    assert_eq!(rt; values_weight(&values), 16 + 18);
    assert_eq!(rt; values_weight(&[]), 0);
    assert!(rt; matches!(values[0].copy(alloc)?, Value::Missing));
    match values[1].copy(alloc)? {
        Value::Of(text) => assert_eq!(rt; text.as_bytes(), "é".as_bytes()),
        Value::Missing => panic!(rt; "a text is missing in its copy"),
    }
    Ok(())
}

/// A list of a text and a missing value.
fn two_values(alloc: Global) -> Result<ValueList, Memory> {
    let text = Text::from_utf8(alloc, b"abc")?;
    let mut values = ValueList::new(alloc);
    values.push(Value::Of(text))?;
    values.push(Value::Missing)?;
    Ok(values)
}

#[test]
fn a_list_is_read(rt: HostRuntime) -> Result<(), Fail> {
    let mut list = two_values(rt.alloc())?;
    for shared in [false, true] {
        assert_eq!(rt; list.len(), 2, "at {shared}");
        assert!(rt; !list.is_empty());
        assert_eq!(rt; list.as_slice().len(), 2);
        assert!(rt; matches!(list.get(0), Some(Value::Of(_))), "at {shared}");
        assert!(rt; matches!(list.get(1), Some(Value::Missing)), "at {shared}");
        assert!(rt; list.get(2).is_none());
        assert!(rt; list.len() <= 8192);
        assert_eq!(rt; list.weight(), 16 + 3 + 16, "at {shared}");
        list.share(rt.alloc())?;
    }
    Ok(())
}

#[test]
fn a_copy_of_a_shared_list_grows_alone(rt: HostRuntime) -> Result<(), Fail> {
    let alloc = rt.alloc();
    let mut list = two_values(alloc)?;
    let own = list.copy(alloc)?;
    assert_eq!(rt; own.len(), 2);
    list.share(alloc)?;
    let mut copy = list.copy(alloc)?;
    copy.push(Value::Missing)?;
    assert_eq!(rt; copy.len(), 3);
    assert!(rt; matches!(copy.get(0), Some(Value::Of(_))));
    assert!(rt; matches!(copy.get(2), Some(Value::Missing)));
    assert_eq!(rt; goes_to_threads(&list).len(), 2);
    Ok(())
}

#[test]
fn a_list_of_one_value_is_stretched(rt: HostRuntime) -> Result<(), Fail> {
    let alloc = rt.alloc();
    let text = Value::Of(Text::from_utf8(alloc, b"abc")?);
    let own = ValueList::from_vec(vec![in alloc; text]?);
    let mut many = own.stretched(alloc, 5)?;
    assert_eq!(rt; many.len(), 5);
    assert_eq!(rt; many.as_slice().len(), 1);
    assert!(rt; matches!(many.get(4), Some(Value::Of(_))));
    assert!(rt; many.get(5).is_none());
    assert!(rt; many.len() <= 8192);
    assert_eq!(rt; many.weight(), 5 * 19);
    // five values are no longer one, and a list of another length stays
    assert_eq!(rt; many.stretched(alloc, 7)?.len(), 5);
    assert_eq!(rt; two_values(alloc)?.stretched(alloc, 7)?.len(), 2);
    let one = own.stretched(alloc, 1)?;
    assert_eq!(rt; one.stretched(alloc, 3)?.len(), 3);
    many.push(Value::Missing)?;
    assert_eq!(rt; many.as_slice().len(), 6);
    assert!(rt; matches!(many.get(5), Some(Value::Missing)));
    Ok(())
}

#[test]
fn the_empty_list_is_shared(rt: HostRuntime) -> Result<(), Fail> {
    let alloc = rt.alloc();
    let mut none = ValueList::new(alloc);
    none.share(alloc)?;
    assert!(rt; none.is_empty());
    let mut stretched = none.stretched(alloc, 3)?;
    assert!(rt; stretched.is_empty());
    assert_eq!(rt; stretched.weight(), 0);
    stretched.push(Value::Missing)?;
    assert_eq!(rt; stretched.len(), 1);
    assert!(rt; none.copy(alloc)?.is_empty());
    Ok(())
}
