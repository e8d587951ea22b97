ghost use Rattle.std.specs.Prelude.{◌<◌, ◌≤◌, length};
ghost use Rattle.sa_base.specs.Streams.{Stream, Reads};

/// The answer of a read.
#[derive(Clone, Copy, Debug, PartialEq, Eq)]
pub enum Got {
    /// This many bytes were read, at least one.
    Bytes(usize),
    /// Nothing is left.
    End,
    /// The read failed and took nothing.
    Failed,
}

/// Where bytes are read from.
pub trait Source {
    /// The bytes that are left, where the source tells them, and how many faults there were. The count
    /// never falls, and at 2^64 - 1 it stands still.
    ghost stream: { Self → Stream };

    /// Reads into the front of `to`, in a piece of any length. The count of faults rises where a read
    /// fails and stays otherwise, and the end comes only where nothing is left.
    fn read(&mut self, to: &mut [u8]) -> Got
        requires { 0 < length to.old }
        ensures reads { Reads (stream self.old) (stream self.new) to.new result }
        ensures kept { (stream self.old).faults ≤ (stream self.new).faults };
}
