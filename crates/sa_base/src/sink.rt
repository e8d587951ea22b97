ghost use Rattle.std.specs.Prelude.{◌<◌, ◌≤◌, length};
ghost use Rattle.sa_base.specs.Streams.{Stream, Writes};

/// The answer of a write.
#[derive(Clone, Copy, Debug, PartialEq, Eq)]
pub enum Took {
    /// This many bytes were written, at least one.
    Bytes(usize),
    /// The write failed and wrote nothing.
    Failed,
}

/// Where bytes are written to.
pub trait Sink {
    /// The bytes that were written, where the sink tells them, and how many faults there were. The
    /// count never falls, and at 2^64 - 1 it stands still.
    ghost stream: { Self → Stream };

    /// Writes the front of `from`, in a piece of any length. The count of faults rises where a write
    /// fails and stays otherwise.
    fn write(&mut self, from: &[u8]) -> Took
        requires { 0 < length from.now }
        ensures writes { Writes (stream self.old) (stream self.new) from.now result }
        ensures kept { (stream self.old).faults ≤ (stream self.new).faults };
}
