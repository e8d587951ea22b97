ghost use Rattle.std.specs.Prelude.{◌≡◌, ◌≤◌, ◌<◌, length};
ghost use Rattle.sa_base.specs.Streams.{Writes, faults_after_write};
ghost use Rattle.sa_base.specs.Adapters.{took_of};

use crate::sink::{Sink, Took};
use std::io;
use std::io::{Stdout, Write};

/// A writer as a sink. It tells the bytes that were written where the writer does, and counts the
/// writes that fail; one that takes no byte is one.
#[derive(Drop)]
pub struct WriterSink<W> {
    writer: W,
    faults: u64,
}

/// Standard output, which tells nothing of its bytes.
pub type StdSink = WriterSink<Stdout>;

impl<W: Write> WriterSink<W> {
    /// The writer as it is, with no fault so far.
    pub fn new(writer: W) -> WriterSink<W>
        ensures writer { result.writer ≡ writer }
        ensures faults { result.faults ≡ 0 }
    {
        WriterSink { writer, faults: 0 }
    }
}

impl<W: Write> Sink for WriterSink<W> {
    ghost stream = { λ s. record { bytes = W.contents s.writer; faults = s.faults } };

    fn write(&mut self, from: &[u8]) -> Took
        requires { 0 < length from.now }
        ensures writes { Writes (record { bytes = W.contents self.old.writer; faults = self.old.faults }) (record { bytes = W.contents self.new.writer; faults = self.new.faults }) from.now result }
        ensures kept { self.old.faults ≤ self.new.faults }
        ensures counted { self.new.faults ≡ faults_after_write result self.old.faults }
    {
        let took = took_of(self.writer.write(from));
        if let Took::Failed = took {
            self.faults = self.faults.saturating_add(1);
        }
        took
    }
}

/// What a writer's answer is to a sink.
fn took_of(written: io::Result<usize>) -> Took
    ensures { result ≡ took_of written }
{
    match written {
        Ok(0) | Err(_) => Took::Failed,
        Ok(count) => Took::Bytes(count),
    }
}
