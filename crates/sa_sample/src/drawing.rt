ghost use Rattle.std.specs.Prelude.{◌≡◌, ◌<◌, ◌%◌, nat_lt, if◌then◌else◌};
ghost use Rattle.sa_sample.specs.Samples.{after_call, drawn_call, next, op_of};

/// Entries of an array of a sample, from a place on. The number of the array is also that of its
/// descriptor.
#[derive(Clone, Copy, Debug, PartialEq, Eq)]
pub struct DrawnView {
    /// The array's number, below 4.
    pub array: u32,
    /// The place of the first entry, below 32.
    pub start: u32,
}

/// What a call of a sample does; a word is given by its number.
#[derive(Clone, Copy, Debug, PartialEq, Eq)]
pub enum DrawnOp {
    /// Sets all entries to a word.
    SetWord(u32),
    /// Adds a word to each text.
    AddWord(u32),
    /// Copies the texts.
    Copy,
    /// Puts `éé` in place of each `a`.
    Replace,
    /// Strips the texts.
    Strip,
    /// Finds `a` in the texts, and writes numbers.
    Find,
    /// Writes each text twice.
    Multiply,
    /// Sets all entries to the missing value.
    SetMissing,
}

/// A call of a sample, as it is drawn.
#[derive(Clone, Copy, Debug, PartialEq, Eq)]
pub struct DrawnCall {
    /// What it does.
    pub op: DrawnOp,
    /// What it reads.
    pub source: DrawnView,
    /// What it writes.
    pub target: DrawnView,
    /// How many entries it reads and writes, from 1 to 32.
    pub count: u32,
}

/// A generator of numbers: x becomes (75 x + 74) modulo 65,537.
#[derive(Clone, Copy, Debug, PartialEq, Eq)]
pub struct Draws {
    /// The number x.
    pub state: u32,
}

impl Draws {
    /// The next number, modulo this bound.
    fn below(&mut self, bound: u32) -> u32
        requires { 0 < bound }
        ensures moves { self.new.state ≡ next self.old.state }
        ensures gives { result ≡ next self.old.state % bound }
    {
        let state = (75 * u64::from(self.state) + 74) % 65537;
        self.state = state as u32;
        self.state % bound
    }

    /// What a call of this group does; a word is drawn where the group has one.
    fn op(&mut self, group: u32) -> DrawnOp
        ensures moves { self.new.state ≡ (if nat_lt group 2 then next self.old.state else self.old.state) }
        ensures gives { result ≡ op_of group (next self.old.state % 8) }
    {
        match group {
            0 => DrawnOp::SetWord(self.below(8)),
            1 => DrawnOp::AddWord(self.below(8)),
            2 => DrawnOp::Copy,
            3 => DrawnOp::Replace,
            4 => DrawnOp::Strip,
            5 => DrawnOp::Find,
            6 => DrawnOp::Multiply,
            _ => DrawnOp::SetMissing,
        }
    }

    /// The next call.
    pub fn call(&mut self) -> DrawnCall
        ensures moves { self.new.state ≡ after_call self.old.state }
        ensures gives { result ≡ drawn_call self.old.state }
    {
        let group = self.below(8);
        let source = self.below(4);
        let target = self.below(4);
        let count = 1 + self.below(32);
        let read_from = self.below(32);
        let written_from = self.below(32);
        let op = self.op(group);
        DrawnCall {
            op,
            source: DrawnView {
                array: source,
                start: read_from,
            },
            target: DrawnView {
                array: target,
                start: written_from,
            },
            count,
        }
    }
}
