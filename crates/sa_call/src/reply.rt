ghost use Rattle.std.specs.Prelude.{◌≡◌, IfOk};
ghost use Rattle.sa_call.specs.Decides.{refusal_code, refused_with, done};

use crate::operands::Picture;
use sa_base::{Memory, Stats};
use sa_plain::Items;
use std::alloc::Global;

/// Why a call is refused.
#[derive(Clone, Copy, Debug, PartialEq, Eq)]
pub enum Refusal {
    /// A result is missing, and the output's descriptor has no missing values.
    NoMissing,
    /// A text is missing, and the rule of the call says so.
    MissingValue,
    /// A text would have more than 65,536 bytes.
    TooLong,
    /// What the call reads and gives weighs more than 1,048,576.
    TooMuch,
    /// A text that is sought does not stand in another.
    NotFound,
}

impl Refusal {
    /// The refusal's number in a report.
    pub fn code(self) -> u8
        ensures { result ≡ refusal_code self }
    {
        match self {
            Refusal::NoMissing => 1,
            Refusal::MissingValue => 2,
            Refusal::TooLong => 3,
            Refusal::TooMuch => 4,
            Refusal::NotFound => 9,
        }
    }
}

/// What a call answers.
#[derive(Debug, Drop)]
pub enum Reply {
    /// The results were put into the output.
    Done,
    /// The results, of a call without an output.
    Shown(Items),
    /// The statistics of a descriptor.
    Sized(Stats),
    /// The picture of a descriptor.
    Pictured(Picture),
    /// The call was refused, for this reason at this element, and changed nothing.
    Refused { code: u8, at: u32 },
}

impl Reply {
    /// The same answer once more. `Memory` where there is no memory for it.
    pub fn copy(&self, alloc: Global) -> Result<Reply, Memory>
        ensures { IfOk result (λ r. r ≡ self.now) }
    {
        match self {
            Reply::Done => Ok(Reply::Done),
            Reply::Shown(items) => Ok(Reply::Shown(items.copy(alloc)?)),
            Reply::Sized(stats) => Ok(Reply::Sized(*stats)),
            Reply::Pictured(picture) => Ok(Reply::Pictured(picture.copy(alloc)?)),
            Reply::Refused { code, at } => Ok(Reply::Refused {
                code: *code,
                at: *at,
            }),
        }
    }
}

/// What comes of a call: the results, where it has an output and is not refused, and the reply.
#[derive(Debug, Drop)]
pub struct Outcome {
    pub results: Option<Items>,
    pub reply: Reply,
}

impl Outcome {
    /// Of a call that is refused, for this reason at this element.
    pub(crate) fn refused(cause: Refusal, at: u32) -> Outcome
        ensures { result ≡ refused_with cause at }
    {
        Outcome {
            results: None,
            reply: Reply::Refused {
                code: cause.code(),
                at,
            },
        }
    }

    /// Of a call that only answers.
    pub(crate) fn answered(reply: Reply) -> Outcome
        ensures { result ≡ done reply }
    {
        Outcome {
            results: None,
            reply,
        }
    }
}
