use crate::{Block, SharedBytes};
use std::alloc::Global;
use std::process::Abort;
use std::test::Fail;

/// Takes a value whose type may go to other threads, by value and by reference.
fn goes_to_threads<T: Send + Sync>(value: &T) -> &T {
    value
}

/// The first bytes of a slice, and a copy that outlives the original, are those bytes.
fn try_front(rt: &impl Abort, alloc: Global, all: &[u8], size: usize) -> Result<(), Fail> {
    assert!(rt; size <= 65_536);
    assert!(rt; size <= all.len());
    let wanted = &all[..size];
    let bytes = SharedBytes::from_slice(alloc, wanted)?;
    let front = SharedBytes::from_front(alloc, all, size)?;
    assert_eq!(rt; bytes.len(), size);
    assert_eq!(rt; bytes.is_empty(), size == 0);
    assert!(rt; bytes.as_slice() == wanted);
    assert!(rt; bytes.is_same(&front), "of {size}");
    let copy = bytes.copy()?;
    drop(bytes);
    drop(front);
    assert_eq!(rt; copy.len(), size);
    assert!(rt; goes_to_threads(&copy).as_slice() == wanted);
    Ok(())
}

#[test]
fn bytes_are_kept_and_copied(rt: HostRuntime) -> Result<(), Fail> {
    let alloc = rt.alloc();
    let all = vec![in alloc; b'x'; 65_600]?;
    for size in [0, 1, 13, 14, 15, 16, 17, 64, 65_535, 65_536] {
        try_front(&rt, alloc, all.as_slice(), size)?;
    }
    Ok(())
}

#[test]
fn other_bytes_are_not_the_same(rt: HostRuntime) -> Result<(), Fail> {
    let alloc = rt.alloc();
    let none = SharedBytes::new();
    assert!(rt; none.is_empty());
    assert!(rt; none.as_slice().is_empty());
    let rows = [
        (b"a".as_slice(), b"b".as_slice(), false),
        (b"a", b"a", true),
        (b"a", b"", false),
        (b"abcdefghijklmnop", b"abcdefghijklmnopq", false),
        (b"abcdefghijklmnopq", b"abcdefghijklmnopr", false),
        (b"abcdefghijklmnopq", b"abcdefghijklmnopq", true),
    ];
    for (first, second, same) in rows {
        let one = SharedBytes::from_slice(alloc, first)?;
        let other = SharedBytes::from_slice(alloc, second)?;
        assert_eq!(rt; one.is_same(&other), same, "of {first:?} and {second:?}");
    }
    Ok(())
}

#[test]
fn parts_of_a_block_are_its_bytes(rt: HostRuntime) -> Result<(), Fail> {
    let alloc = rt.alloc();
    let letters = b"abcdefghijklmnopqrstuvwxyz";
    let block = Block::new(alloc, Vec::from_slice(alloc, letters)?)?;
    for (start, size) in [
        (0, 26),
        (0, 14),
        (1, 15),
        (11, 15),
        (26, 0),
        (25, 1),
        (5, 20),
    ] {
        assert!(rt; start + size <= letters.len());
        let part = block.part(start, size)?;
        assert_eq!(rt; part.len(), size);
        assert!(rt;
            part.as_slice() == &letters[start..start + size],
            "of {start} and {size}"
        );
        let whole = SharedBytes::from_vec(Vec::from_slice(alloc, letters)?)?;
        assert!(rt; start + size <= whole.len());
        assert!(rt;
            whole.part(start, size)?.is_same(&part),
            "of {start} and {size}"
        );
    }
    // a part outlives its block, and a part of it outlives it
    let part = block.part(3, 18)?;
    drop(block);
    assert!(rt; part.as_slice() == b"defghijklmnopqrstu".as_slice());
    assert!(rt; part.len() == 18);
    let rest = part.part(2, 16)?;
    drop(part);
    assert!(rt; rest.as_slice() == b"fghijklmnopqrstu".as_slice());
    Ok(())
}
