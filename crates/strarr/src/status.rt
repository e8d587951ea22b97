ghost use Rattle.std.specs.Prelude.{◌≡◌};
ghost use Rattle.strarr.specs.Outputs.{number_of_status};

use sa_base::Memory;

/// How a run ends. `main` exits with its number.
#[derive(Clone, Copy, Debug, PartialEq, Eq)]
pub enum Status {
    /// The input was read to its end and all output was written.
    Done = 0,
    /// The words are no command.
    Words = 2,
    /// The input is no script.
    Script = 3,
    /// A read failed.
    ReadFault = 4,
    /// A write failed.
    WriteFault = 5,
    /// There was no memory.
    NoMemory = 6,
    /// The input is longer than a script may be.
    LongScript = 7,
}

impl Status {
    /// The number that the program exits with.
    pub fn number(self) -> u8
        ensures { result ≡ number_of_status self }
    {
        self as u8
    }
}

impl From<Memory> for Status {
    ghost use Rattle.std.specs.Prelude.{◌≡◌};
    ghost use Rattle.strarr.specs.declared.status.Status.TheVariants.{NoMemory};

    ghost from_gives = { λ _ status. status ≡ NoMemory };

    fn from(_memory: Memory) -> Status {
        Status::NoMemory
    }
}
