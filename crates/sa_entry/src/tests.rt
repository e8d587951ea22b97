ghost use Rattle.std.specs.Prelude.{◌<◌};

use crate::{Entry, Form};

/// Sixteen zero bytes but for one of them and the last.
fn bytes_with(place: usize, byte: u8, last: u8) -> [u8; 16]
    requires { place < 16 }
{
    let mut bytes = [0; 16];
    bytes[place] = byte;
    bytes[15] = last;
    bytes
}

#[test]
fn spellings_alone_are_read(rt: HostRuntime) {
    // the byte that is not zero, its value, the last byte, and the form
    let rows = [
        (0, 0, 0x00, Some(Form::Fresh)),
        (0, 0, 0x60, Some(Form::Inline { size: 0 })),
        (0, 0x61, 0x60, None),
        (0, 0x61, 0x00, None),
        (8, 0x10, 0x30, None),
        (
            8,
            0x10,
            0x40,
            Some(Form::Arena {
                at: 0,
                size: 16,
                long: false,
            }),
        ),
        (9, 0x01, 0x40, None),
        (
            8,
            0x14,
            0x50,
            Some(Form::Arena {
                at: 0,
                size: 20,
                long: true,
            }),
        ),
        (8, 0x0f, 0x70, None),
        (0, 0, 0xc0, Some(Form::Missing)),
        (0, 0, 0x80, None),
    ];
    for (place, byte, last, want) in rows {
        assert!(rt; place < 16);
        let form = Entry::read(bytes_with(place, byte, last)).map(|entry| entry.form());
        assert_eq!(rt; form, want, "at {place} {byte:x}, last {last:x}");
    }
}

#[test]
fn last_bytes_behind_zeros(rt: HostRuntime) {
    for last in 0..=255u8 {
        let is_read = Entry::read(bytes_with(0, 0, last)).is_some();
        assert_eq!(rt;
            is_read,
            matches!(last, 0 | 0x60..=0x6f | 0xc0),
            "last {last:x}"
        );
    }
}

#[test]
fn slots_are_spelled(rt: HostRuntime) {
    let rows = [
        (Entry::fresh(), *b"\0\0\0\0\0\0\0\0\0\0\0\0\0\0\0\0"),
        (Entry::missing(), *b"\0\0\0\0\0\0\0\0\0\0\0\0\0\0\0\xc0"),
        (Entry::inline(b"abcdefghijklmno"), *b"abcdefghijklmnoo"),
        (
            Entry::in_arena(1, 16, false),
            *b"\x01\0\0\0\0\0\0\0\x10\0\0\0\0\0\0\x40",
        ),
        (
            Entry::in_arena(264, 256, true),
            *b"\x08\x01\0\0\0\0\0\0\0\x01\0\0\0\0\0\x50",
        ),
        (
            Entry::outside(0, 20),
            *b"\0\0\0\0\0\0\0\0\x14\0\0\0\0\0\0\x70",
        ),
    ];
    for (entry, want) in rows {
        assert_eq!(rt; entry.bytes(), want);
        assert_eq!(rt;
            Entry::read(want).map(|read| read.form()),
            Some(entry.form())
        );
    }
    assert_eq!(rt; Entry::inline(b"abc").inline_bytes(), b"abc".as_slice());
    assert_eq!(rt; Entry::inline(b"abc").size(), 3);
    assert_eq!(rt; Entry::outside(7, 20).size(), 20);
    assert!(rt; Entry::fresh().inline_bytes().is_empty());
    for last in [Entry::missing(), Entry::outside(7, 20)] {
        let mut entry = last;
        entry.set_inline(b"abc");
        assert_eq!(rt; entry.bytes(), Entry::inline(b"abc").bytes());
        entry.set_inline(b"abcdefghijklmno");
        assert_eq!(rt; entry.bytes(), *b"abcdefghijklmnoo");
    }
}
