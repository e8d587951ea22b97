use crate::fault_line;
use crate::writing::{push_call_line, push_memory_line, push_pair};
use sa_base::{Memory, Stats};
use sa_call::{ByteList, EntryList, Picture, Reply};
use sa_plain::{Items, ValueList, push_items};
use sa_text::{Text, Value};
use std::alloc::Global;
use std::test::Fail;

/// A list of values; none stands for a missing one.
fn items(alloc: Global, texts: &[Option<&str>]) -> Result<Items, Fail> {
    let mut values = ValueList::new(alloc);
    for text in texts {
        let value = match text {
            Some(text) => Value::Of(Text::from_bytes(alloc, text.as_bytes())?),
            None => Value::Missing,
        };
        values.push(value)?;
    }
    Ok(Items::Values(values))
}

#[test]
fn lists_are_written_as_they_are_read(rt: HostRuntime) -> Result<(), Fail> {
    let alloc = rt.alloc();
    let rows: [(&[Option<&str>], &[u8]); 6] = [
        (&[], b"()"),
        (&[Some("")], b"(\"\")"),
        (&[None], b"(na)"),
        (&[Some("a"), None, Some("na")], b"(\"a\",na,\"na\")"),
        (&[Some("\"\\")], b"(\"\\\"\\\\\")"),
        (
            &[Some("\u{0}\u{1f}\u{20}\u{7f}\u{80}é")],
            b"(\"\\u{0}\\u{1f} \\u{7f}\xc2\x80\xc3\xa9\")",
        ),
    ];
    for (texts, bytes) in rows {
        let mut out = Vec::new(alloc);
        push_items(&mut out, &items(alloc, texts)?)?;
        assert_eq!(rt; out.as_slice(), bytes);
    }
    Ok(())
}

#[test]
fn calls_have_their_lines(rt: HostRuntime) -> Result<(), Fail> {
    let alloc = rt.alloc();
    let mut out = Vec::new(alloc);
    push_call_line(&mut out, 0, &Reply::Done)?;
    push_call_line(&mut out, 1, &Reply::Shown(items(alloc, &[Some("hi")])?))?;
    push_call_line(&mut out, 1023, &Reply::Refused { code: 4, at: 8191 })?;
    push_pair(&mut out, (63, 1023))?;
    assert_eq!(rt;
        out.as_slice(),
        b"0 done\n1 shown (\"hi\")\n1023 refused 4 8191\n 63:1023".as_slice()
    );
    Ok(())
}

/// The picture of these slots and of these bytes of an arena.
fn pictured(alloc: Global, slots: &[[u8; 16]], arena: &[u8]) -> Result<Reply, Memory> {
    Ok(Reply::Pictured(Picture {
        entries: EntryList::from_slice(alloc, slots)?,
        arena: ByteList::from_slice(alloc, arena)?,
    }))
}

#[test]
fn sizes_and_pictures_have_their_lines(rt: HostRuntime) -> Result<(), Memory> {
    let alloc = rt.alloc();
    let mut out = Vec::new(alloc);
    let stats = Stats {
        cursor: 96,
        live: 64,
        dead: 32,
        outside: 1,
    };
    let slot = [1, 35, 69, 103, 137, 171, 205, 239, 0, 0, 0, 0, 0, 0, 0, 255];
    push_call_line(&mut out, 0, &Reply::Sized(stats))?;
    push_call_line(&mut out, 1, &pictured(alloc, &[], &[])?)?;
    push_call_line(
        &mut out,
        2,
        &pictured(alloc, &[[0; 16], slot], &[0, 15, 160])?,
    )?;
    push_memory_line(&mut out, 3)?;
    assert_eq!(rt;
        out.as_slice(),
        b"0 sized 96 64 32 1\n1 picture arena -\n2 picture 00000000000000000000000000000000 0123456789abcdef00000000000000ff arena 000fa0\n3 memory\n".as_slice()
    );
    Ok(())
}

#[test]
fn faults_have_their_lines(rt: HostRuntime) -> Result<(), Memory> {
    let rows: [(u8, u64, &[u8]); 3] = [
        (11, 0, b"fault 11 line 0\n"),
        (2, 2_000_001, b"fault 2 line 2000001\n"),
        (255, u64::MAX, b"fault 255 line 18446744073709551615\n"),
    ];
    for (code, line, bytes) in rows {
        assert_eq!(rt; fault_line(rt.alloc(), code, line)?.as_slice(), bytes);
    }
    Ok(())
}
