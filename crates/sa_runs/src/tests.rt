use crate::{cut_run, is_plain, plain_len};
use std::test::Fail;

/// Bytes that stand for themselves, among them the neighbours of each mark.
const PLAIN: &[u8] = b" !#[]az~\x80\xff\xa0\xdc\xc3\xa9";

/// Each kind of mark.
const MARKS: &[u8] = b"\"\\\0\t\n\x1f\x7f";

#[test]
fn kinds(rt: HostRuntime) -> Result<(), Fail> {
    for byte in PLAIN {
        assert!(rt; is_plain(*byte), "{byte}");
    }
    for byte in MARKS {
        assert!(rt; !is_plain(*byte), "{byte}");
    }
    Ok(())
}

#[test]
fn a_mark_at_each_place(rt: HostRuntime) -> Result<(), Fail> {
    for mark in MARKS {
        for at in 0..41usize {
            let mut bytes = [b'a'; 41];
            bytes[at] = *mark;
            assert_eq!(rt; plain_len(&bytes), at, "{mark} at {at}");
            let (ran, rest) = cut_run(&bytes);
            assert_eq!(rt; ran.len(), at, "{mark} at {at}");
            assert_eq!(rt; rest.len(), 41 - at, "{mark} at {at}");
            assert!(rt; rest.first() == Some(mark), "{mark} at {at}");
        }
    }
    Ok(())
}

#[test]
fn the_first_of_two_marks(rt: HostRuntime) -> Result<(), Fail> {
    for at in 0..40usize {
        let mut bytes = [0xe9; 41];
        bytes[at] = b'"';
        bytes[40] = b'\\';
        assert_eq!(rt; plain_len(&bytes), at, "at {at}");
    }
    Ok(())
}

#[test]
fn no_mark(rt: HostRuntime) -> Result<(), Fail> {
    let bytes = [b'~'; 105];
    for size in 0..106usize {
        assert_eq!(rt; plain_len(&bytes[..size]), size, "{size}");
        let (ran, rest) = cut_run(&bytes[..size]);
        assert_eq!(rt; ran.len(), size, "{size}");
        assert!(rt; rest.is_empty(), "{size}");
    }
    Ok(())
}
