use sa_base::Sequence;
use sa_plain::Items;
use sa_view::View;

/// What a call does.
#[derive(Clone, Copy, Debug, PartialEq, Eq)]
pub enum Op {
    /// Puts the items of a literal into the output.
    Set,
    /// Puts the items of a view into the output.
    Copy,
    /// Answers the items of a view.
    Show,
    /// Makes two texts one.
    Add,
    /// Repeats a text.
    Multiply,
    /// Puts this fill on both sides of a text, up to a width.
    Center(char),
    /// Puts this fill behind a text, up to a width.
    Ljust(char),
    /// Puts this fill in front of a text, up to a width.
    Rjust(char),
    /// Puts zeros in front of a text and behind its sign, up to a width.
    Zfill,
    /// Takes spaces, or the code points of a text, away at both ends of a text.
    Strip,
    /// Takes them away in front.
    Lstrip,
    /// Takes them away at the end.
    Rstrip,
    /// Puts a text in place of another in a third, so many times.
    Replace,
    /// Tells the first place of a text in another, or -1.
    Find,
    /// Tells its last place, or -1.
    Rfind,
    /// Tells the first place; without one the call is refused.
    Index,
    /// Tells the last place; without one the call is refused.
    Rindex,
    /// Tells how often a text stands in another.
    Count,
    /// Tests whether a text stands in another where a search begins.
    Starts,
    /// Tests whether a text stands in another so that it ends where a search ends.
    Ends,
    /// Tests whether two texts are the same.
    Equal,
    /// Tests whether two texts differ.
    NotEqual,
    /// Tests whether the first of two texts is less, in the order of their code points.
    Less,
    /// Tests whether the first is less, or they are the same.
    LessEqual,
    /// Tests whether the first is greater.
    Greater,
    /// Tests whether the first is greater, or they are the same.
    GreaterEqual,
    /// Tests whether a text is not empty and each of its code points is a letter.
    IsAlpha,
    /// The same with decimal digits.
    IsDecimal,
    /// The same with letters and numbers.
    IsAlnum,
    /// The same with spaces.
    IsSpace,
    /// Answers the statistics of the descriptor of this number.
    Stats(u8),
    /// Answers the picture of the descriptor of this number: its entries and its arena.
    Image(u8),
}

/// An operand of a call: items of an array, or the items themselves.
#[derive(Debug, Drop)]
pub enum Operand {
    View(View),
    Literal(Items),
}

/// The operands of a call, in order.
pub type OperandList = Sequence<Operand>;

/// A call of a task.
#[derive(Debug, Drop)]
pub struct Call {
    pub op: Op,
    pub operands: OperandList,
    pub out: Option<View>,
}

/// The calls of a task, numbered from 0.
pub type CallList = Sequence<Call>;

/// The tasks of a script, numbered from 0.
pub type TaskList = Sequence<CallList>;
