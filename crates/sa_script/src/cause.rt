ghost use Rattle.std.specs.Prelude.{◌≡◌};
ghost use Rattle.sa_script.specs.Faults.{code_of};

/// Why a line is no line of a script.
#[derive(Clone, Copy, Debug, PartialEq, Eq)]
pub enum Cause {
    /// The line's bytes are not UTF-8.
    Utf8,
    /// The line is no statement: an unknown first word, a wrong number of tokens, or a token of no
    /// fitting spelling.
    Syntax,
    /// A declaration after the first task, a call before it, or a statement after the end.
    Order,
    /// A name that is declared already, or one that is used and not declared, or declared as the
    /// other sort.
    Name,
    /// A limit is passed by this line, a length is below 0, or a number is no i64.
    Limit,
    /// A view is none of its array: start or count is no u32, the step is no i32, that of a slice is 0, or
    /// it does not fit.
    View,
    /// An operand or the fill is of another kind than the call takes, or has a missing value where none may
    /// stand.
    Kind,
    /// The counts of operands and output do not fit.
    Lengths,
    /// Two descriptors of the call's views have rules that differ.
    Clash,
    /// The fill is not one text of one code point.
    Fill,
    /// There is no end.
    Cut,
}

impl Cause {
    /// The cause's number in the output.
    pub fn code(self) -> u8
        ensures { result ≡ code_of self }
    {
        match self {
            Cause::Utf8 => 1,
            Cause::Syntax => 2,
            Cause::Order => 3,
            Cause::Name => 4,
            Cause::Limit => 5,
            Cause::View => 6,
            Cause::Kind => 7,
            Cause::Lengths => 8,
            Cause::Clash => 9,
            Cause::Fill => 10,
            Cause::Cut => 11,
        }
    }
}
