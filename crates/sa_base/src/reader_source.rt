ghost use Rattle.std.specs.Prelude.{◌≡◌, ◌≤◌, ◌<◌, length};
ghost use Rattle.sa_base.specs.Streams.{Reads, faults_after_read};
ghost use Rattle.sa_base.specs.Adapters.{got_of};

use crate::source::{Got, Source};
use std::io;
use std::io::{Read, Stdin};

/// A reader as a source. It tells the bytes that are left where the reader does, and counts the reads
/// that fail.
#[derive(Drop)]
pub struct ReaderSource<R> {
    reader: R,
    faults: u64,
}

/// Standard input, which tells nothing of its bytes.
pub type StdSource = ReaderSource<Stdin>;

impl<R: Read> ReaderSource<R> {
    /// The reader as it is, with no fault so far.
    pub fn new(reader: R) -> ReaderSource<R>
        ensures reader { result.reader ≡ reader }
        ensures faults { result.faults ≡ 0 }
    {
        ReaderSource { reader, faults: 0 }
    }
}

impl<R: Read> Source for ReaderSource<R> {
    ghost stream = { λ s. record { bytes = R.remaining s.reader; faults = s.faults } };

    fn read(&mut self, to: &mut [u8]) -> Got
        requires { 0 < length to.old }
        ensures reads { Reads (record { bytes = R.remaining self.old.reader; faults = self.old.faults }) (record { bytes = R.remaining self.new.reader; faults = self.new.faults }) to.new result }
        ensures kept { self.old.faults ≤ self.new.faults }
        ensures counted { self.new.faults ≡ faults_after_read result self.old.faults }
    {
        let got = got_of(self.reader.read(to));
        if let Got::Failed = got {
            self.faults = self.faults.saturating_add(1);
        }
        got
    }
}

/// What a reader's answer is to a source.
fn got_of(read: io::Result<usize>) -> Got
    ensures { result ≡ got_of read }
{
    match read {
        Ok(0) => Got::End,
        Ok(count) => Got::Bytes(count),
        Err(_) => Got::Failed,
    }
}
