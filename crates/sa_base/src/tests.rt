use crate::{
    FreeGate, Gate, Got, MemSink, MemSource, ReaderSource, Sequence, Sink, Source, StdSink,
    StdSource, Took, WriterSink,
};
use std::alloc::{AllocError, Global};
use std::io;
use std::io::{Error, ErrorKind, Read, Write};
use std::test::Fail;

/// The bytes that sources give and sinks take.
const BYTES: &[u8] = b"0123456789abcdefghijklmnopqr";

#[test]
fn source_in_memory(rt: HostRuntime) -> Result<(), Fail> {
    use Got::{Bytes, End, Failed};
    let alloc = rt.alloc();
    // how many bytes there are, the piece, the buffer's length, and what each call answers
    let rows: [(usize, usize, usize, &[Got]); 13] = [
        (0, 1, 8, &[End, End]),
        (0, 4, 8, &[Failed, End, Failed, End]),
        (3, 1, 8, &[Bytes(1), Bytes(1), Bytes(1), End, End]),
        (3, 1, 8, &[Failed, Bytes(1), Bytes(1), Bytes(1), End, End]),
        (3, 1, 8, &[Bytes(1), Bytes(1), Failed, Bytes(1), End, End]),
        (3, 1, 8, &[Bytes(1), Bytes(1), Bytes(1), Failed, End, End]),
        (10, 4, 8, &[Bytes(4), Bytes(4), Bytes(2), End, End]),
        (
            10,
            4,
            8,
            &[Failed, Failed, Bytes(4), Bytes(4), Bytes(2), End],
        ),
        (10, 4, 8, &[Bytes(4), Failed, Bytes(4), Bytes(2), End, End]),
        (10, 4, 8, &[Bytes(4), Bytes(4), Failed, Bytes(2), End, End]),
        (
            10,
            4,
            8,
            &[Bytes(4), Bytes(4), Bytes(2), Failed, End, Failed, End],
        ),
        (
            10,
            4,
            3,
            &[Bytes(3), Bytes(3), Bytes(3), Bytes(1), End, End],
        ),
        (8, 4, 8, &[Bytes(4), Bytes(4), End, End]),
    ];
    for (count, piece, room, wants) in rows {
        assert!(rt;
            1 <= piece && 1 <= room && room <= 8 && count <= BYTES.len() && wants.len() < 10
        );
        let fails = places(alloc, wants, Failed)?;
        let mut source = MemSource::new(BYTES[..count].to_vec(alloc)?, piece, fails);
        let mut read = Vec::new(alloc);
        for want in wants {
            let mut buffer = [0u8; 8];
            let got = source.read(&mut buffer[..room]);
            assert_eq!(rt;
                got,
                *want,
                "of {count} bytes in pieces of {piece}: {wants:?}"
            );
            if let Bytes(n) = got {
                assert!(rt; n <= room);
                read.extend_from_slice(&buffer[..n])?;
            }
        }
        assert_eq!(rt; read.as_slice(), &BYTES[..count]);
    }
    Ok(())
}

/// The places of an answer, which are those of the calls that are to fail.
fn places(alloc: Global, answers: &[Got], answer: Got) -> Result<Vec<u64>, AllocError> {
    let mut places = Vec::new(alloc);
    for (place, other) in answers.iter().enumerate() {
        if *other == answer {
            places.push(place as u64)?;
        }
    }
    Ok(places)
}

#[test]
fn sink_in_memory(rt: HostRuntime) -> Result<(), Fail> {
    use Took::{Bytes, Failed};
    let alloc = rt.alloc();
    // the room, the piece, the calls that fail, and what each call answers that offers the rest
    let rows: [(usize, usize, &[u64], &[Took]); 6] = [
        (10, 64, &[], &[Bytes(10), Failed, Failed]),
        (10, 4, &[], &[Bytes(4), Bytes(4), Bytes(2), Failed]),
        (28, 28, &[], &[Bytes(28)]),
        (40, 20, &[0, 2], &[Failed, Bytes(20), Failed, Bytes(8)]),
        (40, 1, &[1], &[Bytes(1), Failed, Bytes(1)]),
        (0, 1, &[], &[Failed]),
    ];
    for (room, piece, fails, wants) in rows {
        assert!(rt; 1 <= piece && wants.len() < 10);
        let mut sink = MemSink::new(alloc, room, piece, fails.to_vec(alloc)?).map_err(
            |_| AllocError,
        )?;
        let mut written = 0;
        for want in wants {
            assert!(rt; written < BYTES.len());
            let took = sink.write(&BYTES[written..]);
            assert_eq!(rt; took, *want, "room {room}, pieces of {piece}: {wants:?}");
            if let Bytes(n) = took {
                assert!(rt; n <= BYTES.len() - written);
                written += n;
            }
        }
        assert!(rt; written <= BYTES.len());
        assert_eq!(rt; sink.bytes(), &BYTES[..written]);
    }
    Ok(())
}

#[test]
fn sequence_keeps_its_items(rt: HostRuntime) -> Result<(), Fail> {
    let mut items: Sequence<u16> = Sequence::new(rt.alloc());
    assert!(rt; items.is_empty());
    assert_eq!(rt; items.get(0), None);
    for k in 0..100u16 {
        items.push(k * 3)?;
    }
    assert_eq!(rt; items.len(), 100);
    assert!(rt; !items.is_empty());
    assert_eq!(rt; items.get(99), Some(&297));
    assert_eq!(rt; items.get(100), None);
    for (k, item) in items.as_slice().iter().enumerate() {
        assert_eq!(rt; usize::from(*item), k * 3);
    }
    assert_eq!(rt; items.pop(), Some(297));
    assert_eq!(rt; items.len(), 99);
    assert_eq!(rt; items.into_vec().pop(), Some(294));
    let mut none: Sequence<u16> = Sequence::new(rt.alloc());
    assert_eq!(rt; none.pop(), None);
    Ok(())
}

/// A reader and a writer whose every other call fails, from the first on; between them it gives one
/// byte, or takes none.
#[derive(Drop)]
struct EveryOther {
    fails: bool,
}

impl EveryOther {
    /// Whether this call fails; the next one then does not, and the other way round.
    fn turn(&mut self) -> io::Result<()> {
        self.fails = !self.fails;
        if self.fails {
            Ok(())
        } else {
            Err(Error::from(ErrorKind::BrokenPipe))
        }
    }
}

impl Read for EveryOther {
    fn read(&mut self, to: &mut [u8]) -> io::Result<usize> {
        self.turn()?;
        if to.is_empty() {
            return Ok(0);
        }
        to[0] = b'x';
        Ok(1)
    }
}

impl Write for EveryOther {
    fn write(&mut self, _from: &[u8]) -> io::Result<usize> {
        self.turn()?;
        Ok(0)
    }

    fn flush(&mut self) -> io::Result<()> {
        Ok(())
    }
}

#[test]
fn reader_as_source(rt: HostRuntime) {
    let mut source = ReaderSource::new(&BYTES[..5]);
    let mut buffer = [0u8; 3];
    assert_eq!(rt; source.read(&mut buffer), Got::Bytes(3));
    assert_eq!(rt; buffer, *b"012");
    assert_eq!(rt; source.read(&mut buffer), Got::Bytes(2));
    assert_eq!(rt; buffer, *b"342");
    assert_eq!(rt; source.read(&mut buffer), Got::End);
    let mut failing = ReaderSource::new(EveryOther { fails: true });
    assert_eq!(rt; failing.read(&mut buffer), Got::Failed);
    assert_eq!(rt; failing.read(&mut buffer), Got::Bytes(1));
    assert_eq!(rt; failing.read(&mut buffer), Got::Failed);
}

#[test]
fn writer_as_sink(rt: HostRuntime) {
    let mut bytes = Vec::new(rt.alloc());
    let mut sink = WriterSink::new(&mut bytes);
    assert_eq!(rt; sink.write(b"ab"), Took::Bytes(2));
    assert_eq!(rt; sink.write(b"c"), Took::Bytes(1));
    assert_eq!(rt; bytes.as_slice(), b"abc".as_slice());
    let mut failing = WriterSink::new(EveryOther { fails: true });
    assert_eq!(rt; failing.write(b"a"), Took::Failed);
    assert_eq!(rt; failing.write(b"a"), Took::Failed);
}

#[test]
fn standard_streams(rt: HostRuntime) {
    let mut source = StdSource::new(rt.stdin());
    let mut buffer = [0u8; 4];
    assert_ne!(rt; source.read(&mut buffer), Got::Bytes(0));
    let mut sink = StdSink::new(rt.stdout());
    assert_ne!(rt; sink.write(b"\n"), Took::Bytes(0));
}

#[test]
fn free_gate_returns() {
    FreeGate.inside(4_294_967_295, 0);
}
