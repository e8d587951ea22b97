ghost use Rattle.std.specs.Prelude.{◌≡◌, ◌∷◌, [], None, Some};
ghost use Rattle.sa_call.specs.Forms.{descr_of, entry, on_descr, op_of, whole_search, with_fill};
ghost use Rattle.sa_descr.specs.declared.missing.MissGroup.TheVariants.{Makes};

use crate::call::Op;
use sa_descr::MissGroup;

/// What may stand for an operand in a call's line.
#[derive(Clone, Copy, Debug, PartialEq, Eq)]
pub enum Sort {
    /// A view of an array.
    View,
    /// A list of items.
    Literal,
    /// Texts: a view of a strings array, or a list of texts.
    Texts,
    /// Numbers: a list of them.
    Numbers,
    /// A list of one text of one code point, which stands in the call itself.
    Fill,
    /// The name of a descriptor, whose number stands in the call itself.
    Descr,
}

/// Where a call's output stands in its line.
#[derive(Clone, Copy, Debug, PartialEq, Eq)]
pub enum Into {
    /// It has none.
    Never,
    /// Behind the word `into`, at the end, where there is one.
    May,
    /// Behind the word `into`, at the end.
    Must,
    /// In front of the operands.
    First,
}

/// What a call gives.
#[derive(Clone, Copy, Debug, PartialEq, Eq)]
pub enum Gives {
    /// Items, one for each element.
    Items,
    /// Statistics of a descriptor.
    Statistics,
    /// The picture of a descriptor.
    Picture,
}

/// The kind of the items that a call gives.
#[derive(Clone, Copy, Debug, PartialEq, Eq)]
pub enum Results {
    /// That of the items that it moves.
    Moved,
    /// Texts, and missing values.
    Texts,
    /// Numbers.
    Numbers,
    /// Flags.
    Flags,
}

/// A call in the table: its word, the sorts of its operands and of those that may be left out together,
/// the numbers that then stand for these, where they are numbers, where its output stands, what it gives and
/// of which kind, and its group of missing values, none where values are moved as they are.
#[derive(Clone, Copy, Debug)]
pub struct Form {
    pub word: &'static str,
    pub needs: &'static [Sort],
    pub may: &'static [Sort],
    pub defaults: &'static [i64],
    pub into: Into,
    pub gives: Gives,
    pub results: Results,
    pub group: Option<MissGroup>,
}

/// Every call, with 0 in place of a descriptor's number and a space in place of a fill.
const CALLS: [Op; 32] = [
    Op::Set,
    Op::Copy,
    Op::Show,
    Op::Add,
    Op::Multiply,
    Op::Center(' '),
    Op::Ljust(' '),
    Op::Rjust(' '),
    Op::Zfill,
    Op::Strip,
    Op::Lstrip,
    Op::Rstrip,
    Op::Replace,
    Op::Find,
    Op::Rfind,
    Op::Index,
    Op::Rindex,
    Op::Count,
    Op::Starts,
    Op::Ends,
    Op::Equal,
    Op::NotEqual,
    Op::Less,
    Op::LessEqual,
    Op::Greater,
    Op::GreaterEqual,
    Op::IsAlpha,
    Op::IsDecimal,
    Op::IsAlnum,
    Op::IsSpace,
    Op::Stats(0),
    Op::Image(0),
];

impl Op {
    /// The call's entry in the table. What it computes of an element is `evaluate`'s.
    pub fn form(self) -> Form
        ensures word { result.word.now ≡ (entry self).word }
        ensures needs { result.needs.now ≡ (entry self).needs }
        ensures may { result.may.now ≡ (entry self).may }
        ensures defaults { result.defaults.now ≡ (entry self).defaults }
        ensures output { result.into ≡ (entry self).into }
        ensures gives { result.gives ≡ (entry self).gives }
        ensures results { result.results ≡ (entry self).results }
        ensures group { result.group ≡ (entry self).group }
    {
        match self {
            Op::Set => moving("set", &[Sort::Literal], Into::First),
            Op::Copy => moving("copy", &[Sort::View], Into::Must),
            Op::Show => moving("show", &[Sort::View], Into::Never),
            Op::Add => making("add", &[Sort::Texts, Sort::Texts], &[], &[]),
            Op::Multiply => making("multiply", &[Sort::Texts, Sort::Numbers], &[], &[]),
            Op::Center(_) => making("center", &[Sort::Texts, Sort::Numbers], &[Sort::Fill], &[]),
            Op::Ljust(_) => making("ljust", &[Sort::Texts, Sort::Numbers], &[Sort::Fill], &[]),
            Op::Rjust(_) => making("rjust", &[Sort::Texts, Sort::Numbers], &[Sort::Fill], &[]),
            Op::Zfill => making("zfill", &[Sort::Texts, Sort::Numbers], &[], &[]),
            Op::Strip => making("strip", &[Sort::Texts], &[Sort::Texts], &[]),
            Op::Lstrip => making("lstrip", &[Sort::Texts], &[Sort::Texts], &[]),
            Op::Rstrip => making("rstrip", &[Sort::Texts], &[Sort::Texts], &[]),
            Op::Replace => making(
                "replace",
                &[Sort::Texts, Sort::Texts, Sort::Texts],
                &[Sort::Numbers],
                &[-1],
            ),
            Op::Find => between("find", Results::Numbers, MissGroup::Searches),
            Op::Rfind => between("rfind", Results::Numbers, MissGroup::Searches),
            Op::Index => between("index", Results::Numbers, MissGroup::Searches),
            Op::Rindex => between("rindex", Results::Numbers, MissGroup::Searches),
            Op::Count => between("count", Results::Numbers, MissGroup::Searches),
            Op::Starts => between("starts", Results::Flags, MissGroup::Tests),
            Op::Ends => between("ends", Results::Flags, MissGroup::Tests),
            Op::Equal => comparing("equal", MissGroup::Orders),
            Op::NotEqual => comparing("not_equal", MissGroup::Differs),
            Op::Less => comparing("less", MissGroup::Orders),
            Op::LessEqual => comparing("less_equal", MissGroup::Orders),
            Op::Greater => comparing("greater", MissGroup::Orders),
            Op::GreaterEqual => comparing("greater_equal", MissGroup::Orders),
            Op::IsAlpha => telling("isalpha", &[Sort::Texts], MissGroup::Tests),
            Op::IsDecimal => telling("isdecimal", &[Sort::Texts], MissGroup::Tests),
            Op::IsAlnum => telling("isalnum", &[Sort::Texts], MissGroup::Tests),
            Op::IsSpace => telling("isspace", &[Sort::Texts], MissGroup::Tests),
            Op::Stats(_) => whole("stats", Gives::Statistics),
            Op::Image(_) => whole("image", Gives::Picture),
        }
    }

    /// The call that a word means.
    pub fn from_word(word: &[u8]) -> Option<Op>
        ensures { result ≡ op_of word.now }
    {
        CALLS
            .iter()
            .copied()
            .find(|op| op.form().word.as_bytes() == word)
    }

    /// The call on the descriptor of this number, where it takes one.
    pub fn on_descr(self, number: u8) -> Op
        ensures { result ≡ on_descr self number }
    {
        match self {
            Op::Stats(_) => Op::Stats(number),
            Op::Image(_) => Op::Image(number),
            other => other,
        }
    }

    /// The call with this fill, where it takes one.
    pub fn with_fill(self, fill: char) -> Op
        ensures { result ≡ with_fill self fill }
    {
        match self {
            Op::Center(_) => Op::Center(fill),
            Op::Ljust(_) => Op::Ljust(fill),
            Op::Rjust(_) => Op::Rjust(fill),
            other => other,
        }
    }

    /// The number of the descriptor whose statistics or picture the call gives.
    pub fn descr(self) -> Option<u8>
        ensures { result ≡ descr_of self }
    {
        match self {
            Op::Stats(number) | Op::Image(number) => Some(number),
            _ => None,
        }
    }
}

/// A call that moves the items of its one operand.
fn moving(word: &'static str, needs: &'static [Sort], output: Into) -> Form
    ensures word { result.word.now ≡ word.now }
    ensures needs { result.needs.now ≡ needs.now }
    ensures may { result.may.now ≡ [] }
    ensures defaults { result.defaults.now ≡ [] }
    ensures output { result.into ≡ output }
    ensures gives { result.gives ≡ Gives.Items }
    ensures results { result.results ≡ Results.Moved }
    ensures group { result.group ≡ None }
{
    Form {
        word,
        needs,
        may: &[],
        defaults: &[],
        into: output,
        gives: Gives::Items,
        results: Results::Moved,
        group: None,
    }
}

/// A call that makes texts.
fn making(
    word: &'static str,
    needs: &'static [Sort],
    may: &'static [Sort],
    defaults: &'static [i64],
) -> Form
    ensures word { result.word.now ≡ word.now }
    ensures needs { result.needs.now ≡ needs.now }
    ensures may { result.may.now ≡ may.now }
    ensures defaults { result.defaults.now ≡ defaults.now }
    ensures output { result.into ≡ Into.May }
    ensures gives { result.gives ≡ Gives.Items }
    ensures results { result.results ≡ Results.Texts }
    ensures group { result.group ≡ Some Makes }
{
    Form {
        word,
        needs,
        may,
        defaults,
        into: Into::May,
        gives: Gives::Items,
        results: Results::Texts,
        group: Some(MissGroup::Makes),
    }
}

/// A call that tells something of a text in another, between two places.
fn between(word: &'static str, results: Results, group: MissGroup) -> Form
    ensures word { result.word.now ≡ word.now }
    ensures needs { result.needs.now ≡ Sort.Texts ∷ Sort.Texts ∷ [] }
    ensures may { result.may.now ≡ Sort.Numbers ∷ Sort.Numbers ∷ [] }
    ensures defaults { result.defaults.now ≡ whole_search }
    ensures output { result.into ≡ Into.May }
    ensures gives { result.gives ≡ Gives.Items }
    ensures results { result.results ≡ results }
    ensures group { result.group ≡ Some group }
{
    Form {
        word,
        needs: &[Sort::Texts, Sort::Texts],
        may: &[Sort::Numbers, Sort::Numbers],
        defaults: &[0, i64::MAX],
        into: Into::May,
        gives: Gives::Items,
        results,
        group: Some(group),
    }
}

/// A call that compares two texts.
fn comparing(word: &'static str, group: MissGroup) -> Form
    ensures word { result.word.now ≡ word.now }
    ensures needs { result.needs.now ≡ Sort.Texts ∷ Sort.Texts ∷ [] }
    ensures may { result.may.now ≡ [] }
    ensures defaults { result.defaults.now ≡ [] }
    ensures output { result.into ≡ Into.May }
    ensures gives { result.gives ≡ Gives.Items }
    ensures results { result.results ≡ Results.Flags }
    ensures group { result.group ≡ Some group }
{
    telling(word, &[Sort::Texts, Sort::Texts], group)
}

/// A call that tells a flag of texts.
fn telling(word: &'static str, needs: &'static [Sort], group: MissGroup) -> Form
    ensures word { result.word.now ≡ word.now }
    ensures needs { result.needs.now ≡ needs.now }
    ensures may { result.may.now ≡ [] }
    ensures defaults { result.defaults.now ≡ [] }
    ensures output { result.into ≡ Into.May }
    ensures gives { result.gives ≡ Gives.Items }
    ensures results { result.results ≡ Results.Flags }
    ensures group { result.group ≡ Some group }
{
    Form {
        word,
        needs,
        may: &[],
        defaults: &[],
        into: Into::May,
        gives: Gives::Items,
        results: Results::Flags,
        group: Some(group),
    }
}

/// A call that answers something of a whole descriptor.
fn whole(word: &'static str, gives: Gives) -> Form
    ensures word { result.word.now ≡ word.now }
    ensures needs { result.needs.now ≡ Sort.Descr ∷ [] }
    ensures may { result.may.now ≡ [] }
    ensures defaults { result.defaults.now ≡ [] }
    ensures output { result.into ≡ Into.Never }
    ensures gives { result.gives ≡ gives }
    ensures results { result.results ≡ Results.Moved }
    ensures group { result.group ≡ None }
{
    Form {
        word,
        needs: &[Sort::Descr],
        may: &[],
        defaults: &[],
        into: Into::Never,
        gives,
        results: Results::Moved,
        group: None,
    }
}
