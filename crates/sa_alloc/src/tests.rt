ghost use Rattle.std.specs.Prelude.{◌≡◌, ◌<◌, length, slice_index};

use crate::{Seen, Store};
use sa_base::Stats;
use sa_text::{Text, Value, stretched_len, value_weight};
use std::alloc::Global;
use std::process::Abort;
use std::test::Fail;

const TEXT_16: &[u8] = b"abcdefghijklmnop";

const TEXT_20: &[u8] = b"abcdefghijklmnopqrst";

const TEXT_24: &[u8] = b"ABCDEFGHIJKLMNOPQRSTUVWX";

const TEXT_40: &[u8] = b"0123456789012345678901234567890123456789";

/// The statistics of these numbers.
fn stats(cursor: u64, live: u64, dead: u64, outside: u64) -> Stats {
    Stats {
        cursor,
        live,
        dead,
        outside,
    }
}

/// The length of an array, which the store has.
fn length_of(rt: &impl Abort, store: &Store, array: u32) -> u32
    ensures known { array < length store.now.contents.layout.lengths }
    ensures length { result ≡ slice_index store.now.contents.layout.lengths array }
{
    let lengths = store.lengths();
    assert!(rt; (array as usize) < lengths.len());
    lengths[array as usize]
}

/// Plans values for so many of an array's places from one on, one value for all or one for each, and
/// writes them.
fn put(
    rt: &impl Abort,
    alloc: Global,
    store: &mut Store,
    array: u32,
    first: u32,
    count: u32,
    values: &[Value],
) -> Result<(), Fail> {
    let length = length_of(rt, store, array);
    assert!(rt; first as usize + count as usize <= length as usize);
    let mut places = Vec::new(alloc);
    for k in 0..count {
        places.push(first + k)?;
    }
    assert_eq!(rt; stretched_len(places.len(), values), places.len());
    let plan = store.plan(alloc, array, places.as_slice(), values)?;
    store.write(plan);
    Ok(())
}

/// Puts texts into an array's places from one on, by one plan.
fn set(
    rt: &impl Abort,
    alloc: Global,
    store: &mut Store,
    array: u32,
    first: u32,
    texts: &[&[u8]],
) -> Result<(), Fail> {
    assert!(rt; texts.len() <= 64);
    let mut values = Vec::new(alloc);
    for text in texts {
        values.push(Value::Of(Text::from_bytes(alloc, text)?))?;
    }
    put(
        rt,
        alloc,
        store,
        array,
        first,
        texts.len() as u32,
        values.as_slice(),
    )
}

/// An array has these slots.
fn has_images(rt: &impl Abort, store: &Store, array: u32, images: &[[u8; 16]]) {
    let length = length_of(rt, store, array);
    assert_eq!(rt; images.len(), length as usize);
    for place in 0..length {
        assert_eq!(rt;
            store.image_entry(array, place),
            images[place as usize],
            "at {place}"
        );
    }
}

/// An array has these values.
fn has_values(rt: &impl Abort, store: &Store, array: u32, values: &[Seen<'_>]) {
    let length = length_of(rt, store, array);
    assert_eq!(rt; values.len(), length as usize);
    for place in 0..length {
        assert_eq!(rt;
            store.load(array, place),
            values[place as usize],
            "at {place}"
        );
    }
}

#[test]
fn fifteen_bytes_are_inline_and_sixteen_in_the_arena(rt: HostRuntime) -> Result<(), Fail> {
    let alloc = rt.alloc();
    let mut store = Store::new(alloc, &[2])?;
    set(&rt, alloc, &mut store, 0, 0, &[b"abcdefghijklmno", TEXT_16])?;
    has_images(
        &rt,
        &store,
        0,
        &[
            *b"abcdefghijklmnoo",
            *b"\x01\0\0\0\0\0\0\0\x10\0\0\0\0\0\0\x40",
        ],
    );
    assert_eq!(rt; store.image_arena(), b"\x10abcdefghijklmnop".as_slice());
    assert_eq!(rt; store.stats(), stats(17, 17, 0, 0));
    Ok(())
}

#[test]
fn a_capacity_above_255_is_a_word(rt: HostRuntime) -> Result<(), Fail> {
    let alloc = rt.alloc();
    let mut store = Store::new(alloc, &[2])?;
    set(&rt, alloc, &mut store, 0, 0, &[&[b'x'; 255], &[b'x'; 256]])?;
    has_images(
        &rt,
        &store,
        0,
        &[
            *b"\x01\0\0\0\0\0\0\0\xff\0\0\0\0\0\0\x40",
            *b"\x08\x01\0\0\0\0\0\0\0\x01\0\0\0\0\0\x50",
        ],
    );
    let arena = store.image_arena();
    assert_eq!(rt; arena.len(), 520);
    assert_eq!(rt; arena[0], 0xff);
    let prefix = &arena[256..264];
    assert_eq!(rt; prefix, [0, 1, 0, 0, 0, 0, 0, 0].as_slice());
    assert_eq!(rt; store.stats(), stats(520, 520, 0, 0));
    Ok(())
}

#[test]
fn the_empty_text_is_inline_and_not_fresh(rt: HostRuntime) -> Result<(), Fail> {
    let alloc = rt.alloc();
    let mut store = Store::new(alloc, &[3])?;
    set(&rt, alloc, &mut store, 0, 0, &[b"hi", b""])?;
    has_images(
        &rt,
        &store,
        0,
        &[
            *b"hi\0\0\0\0\0\0\0\0\0\0\0\0\0\x62",
            *b"\0\0\0\0\0\0\0\0\0\0\0\0\0\0\0\x60",
            [0; 16],
        ],
    );
    assert!(rt; store.image_arena().is_empty());
    Ok(())
}

#[test]
fn one_entry_goes_through_texts(rt: HostRuntime) -> Result<(), Fail> {
    let alloc = rt.alloc();
    let mut store = Store::new(alloc, &[1])?;
    let rows = [
        (
            TEXT_16,
            *b"\x01\0\0\0\0\0\0\0\x10\0\0\0\0\0\0\x40",
            stats(17, 17, 0, 0),
        ),
        (
            TEXT_20,
            *b"\0\0\0\0\0\0\0\0\x14\0\0\0\0\0\0\x70",
            stats(0, 0, 0, 1),
        ),
        (
            b"abc",
            *b"abc\0\0\0\0\0\0\0\0\0\0\0\0\x63",
            stats(0, 0, 0, 0),
        ),
        (
            TEXT_16,
            *b"\0\0\0\0\0\0\0\0\x10\0\0\0\0\0\0\x70",
            stats(0, 0, 0, 1),
        ),
    ];
    for (text, image, want) in rows {
        set(&rt, alloc, &mut store, 0, 0, &[text])?;
        has_images(&rt, &store, 0, &[image]);
        assert_eq!(rt; store.stats(), want);
    }
    assert!(rt; store.image_arena().is_empty());
    Ok(())
}

#[test]
fn the_tail_of_the_arena_is_won_back(rt: HostRuntime) -> Result<(), Fail> {
    let alloc = rt.alloc();
    let mut store = Store::new(alloc, &[3])?;
    set(&rt, alloc, &mut store, 0, 0, &[TEXT_16, TEXT_16, TEXT_16])?;
    assert_eq!(rt; store.stats(), stats(51, 51, 0, 0));
    for (place, want) in [(1, stats(51, 34, 17, 0)), (2, stats(17, 17, 0, 0))] {
        set(&rt, alloc, &mut store, 0, place, &[b"x"])?;
        assert_eq!(rt; store.stats(), want);
    }
    Ok(())
}

#[test]
fn a_plan_reverses_three_texts(rt: HostRuntime) -> Result<(), Fail> {
    let alloc = rt.alloc();
    let mut store = Store::new(alloc, &[3])?;
    set(&rt, alloc, &mut store, 0, 0, &[TEXT_16, TEXT_24, TEXT_40])?;
    set(&rt, alloc, &mut store, 0, 0, &[TEXT_40, TEXT_24, TEXT_16])?;
    has_images(
        &rt,
        &store,
        0,
        &[
            *b"\0\0\0\0\0\0\0\0\x28\0\0\0\0\0\0\x70",
            *b"\x12\0\0\0\0\0\0\0\x18\0\0\0\0\0\0\x40",
            *b"\x2b\0\0\0\0\0\0\0\x10\0\0\0\0\0\0\x40",
        ],
    );
    has_values(
        &rt,
        &store,
        0,
        &[
            Seen::Bytes(TEXT_40),
            Seen::Bytes(TEXT_24),
            Seen::Bytes(TEXT_16),
        ],
    );
    assert_eq!(rt; store.stats(), stats(83, 66, 17, 1));
    Ok(())
}

#[test]
fn a_write_leaves_the_other_array(rt: HostRuntime) -> Result<(), Fail> {
    let alloc = rt.alloc();
    let mut store = Store::new(alloc, &[2, 1])?;
    assert_eq!(rt; store.lengths(), [2, 1].as_slice());
    let empty = Seen::Bytes(b"");
    set(&rt, alloc, &mut store, 0, 1, &[TEXT_16])?;
    has_values(&rt, &store, 1, &[empty]);
    // a text in the arena, one outside, and none
    set(&rt, alloc, &mut store, 1, 0, &[TEXT_24])?;
    has_values(&rt, &store, 1, &[Seen::Bytes(TEXT_24)]);
    set(&rt, alloc, &mut store, 1, 0, &[TEXT_40])?;
    has_values(&rt, &store, 1, &[Seen::Bytes(TEXT_40)]);
    put(&rt, alloc, &mut store, 1, 0, 1, &[Value::Missing])?;
    has_values(&rt, &store, 1, &[Seen::Missing]);
    has_images(&rt, &store, 1, &[*b"\0\0\0\0\0\0\0\0\0\0\0\0\0\0\0\xc0"]);
    has_values(&rt, &store, 0, &[empty, Seen::Bytes(TEXT_16)]);
    has_images(
        &rt,
        &store,
        0,
        &[[0; 16], *b"\x01\0\0\0\0\0\0\0\x10\0\0\0\0\0\0\x40"],
    );
    assert_eq!(rt; store.lengths(), [2, 1].as_slice());
    Ok(())
}

#[test]
fn one_value_goes_to_all_places(rt: HostRuntime) -> Result<(), Fail> {
    let alloc = rt.alloc();
    let mut store = Store::new(alloc, &[3])?;
    let value = Value::Of(Text::from_bytes(alloc, TEXT_16)?);
    put(&rt, alloc, &mut store, 0, 0, 3, &[value])?;
    let seen = Seen::Bytes(TEXT_16);
    has_values(&rt, &store, 0, &[seen, seen, seen]);
    assert_eq!(rt; store.stats(), stats(51, 51, 0, 0));
    Ok(())
}

#[test]
fn values_and_weights_are_those_of_the_entries(rt: HostRuntime) -> Result<(), Fail> {
    let alloc = rt.alloc();
    let mut store = Store::new(alloc, &[1, 5])?;
    // a text in the arena, one inside, one outside, a missing value, and a fresh entry
    set(&rt, alloc, &mut store, 1, 0, &[TEXT_20, b"abc", b"x"])?;
    set(&rt, alloc, &mut store, 1, 2, &[TEXT_40])?;
    put(&rt, alloc, &mut store, 1, 3, 1, &[Value::Missing])?;
    // each place, one of them twice, from the last one down
    let places = [4, 3, 2, 1, 0, 0];
    assert!(rt; length_of(&rt, &store, 1) == 5);
    let values = store.values(alloc, 1, &places)?;
    assert_eq!(rt; values.len(), places.len());
    for k in 0..places.len() {
        let value = &values[k];
        let seen = match value {
            Value::Missing => Seen::Missing,
            Value::Of(text) => Seen::Bytes(text.as_bytes()),
        };
        assert_eq!(rt; store.load(1, places[k]), seen, "at {k}");
        assert_eq!(rt;
            store.value_weight(1, places[k]),
            value_weight(value),
            "at {k}"
        );
    }
    assert_eq!(rt; store.weight(1, &places), 6 * 16 + 2 * 20 + 3 + 40);
    Ok(())
}
