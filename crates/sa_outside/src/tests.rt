use crate::Outside;
use sa_bytes::SharedBytes;
use std::test::Fail;

#[test]
fn texts_stand_under_their_keys(rt: HostRuntime) -> Result<(), Fail> {
    let alloc = rt.alloc();
    let mut texts = Outside::new(alloc);
    assert_eq!(rt; texts.count(), 0);
    assert_eq!(rt; texts.get(0), None);
    texts.reserve(3)?;
    let first = texts.put(SharedBytes::from_slice(alloc, b"first")?);
    let second = texts.put(SharedBytes::from_slice(alloc, b"second")?);
    let third = texts.put(SharedBytes::from_slice(alloc, b"third")?);
    assert_eq!(rt; texts.count(), 3);
    for (key, text) in [(first, "first"), (second, "second"), (third, "third")] {
        assert_eq!(rt; texts.get(key), Some(text.as_bytes()));
    }
    for unused in 0..100 {
        let is_used = unused == first || unused == second || unused == third;
        assert_eq!(rt; texts.get(unused).is_some(), is_used, "of {unused}");
    }
    Ok(())
}

#[test]
fn texts_are_swapped_and_freed(rt: HostRuntime) -> Result<(), Fail> {
    let alloc = rt.alloc();
    let mut texts = Outside::new(alloc);
    texts.reserve(2)?;
    let kept = texts.put(SharedBytes::from_slice(alloc, b"kept")?);
    let key = texts.put(SharedBytes::from_slice(alloc, b"old")?);
    assert_eq!(rt;
        texts
            .swap(key, SharedBytes::from_slice(alloc, b"new")?)
            .as_slice(),
        b"old".as_slice()
    );
    assert_eq!(rt; texts.get(key), Some(b"new".as_slice()));
    assert_eq!(rt; texts.count(), 2);
    assert_eq!(rt; texts.free(key).as_slice(), b"new".as_slice());
    assert_eq!(rt; texts.get(key), None);
    assert_eq!(rt; texts.count(), 1);
    texts.reserve(1)?;
    let again = texts.put(SharedBytes::from_slice(alloc, b"again")?);
    assert_ne!(rt; again, kept);
    assert_eq!(rt; texts.get(again), Some(b"again".as_slice()));
    assert_eq!(rt; texts.get(kept), Some(b"kept".as_slice()));
    assert_eq!(rt; texts.count(), 2);
    Ok(())
}
