ghost use Rattle.std.specs.Prelude.{◌≡◌, IfOk};
ghost use Rattle.sa_descr.specs.Rules.{is_given, same_rule};

use sa_base::Memory;
use sa_text::Text;
use std::alloc::Global;

/// How a descriptor treats missing values.
#[derive(Debug, Drop)]
pub enum NaRule {
    /// Its arrays have no missing values.
    Absent,
    /// A missing value is like a NaN.
    Nan,
    /// A missing value is a value of its own, with which nothing can be computed.
    Other,
    /// A missing value stands for this text.
    Txt(Text),
}

impl NaRule {
    /// The same rule once more.
    pub fn copy(&self, alloc: Global) -> Result<NaRule, Memory>
        ensures { IfOk result (λ r. r ≡ self.now) }
    {
        match self {
            NaRule::Absent => Ok(NaRule::Absent),
            NaRule::Nan => Ok(NaRule::Nan),
            NaRule::Other => Ok(NaRule::Other),
            NaRule::Txt(text) => Ok(NaRule::Txt(text.copy(alloc)?)),
        }
    }

    /// Whether the rule allows missing values.
    pub fn is_given(&self) -> bool
        ensures { result ≡ is_given self.now }
    {
        !matches!(self, NaRule::Absent)
    }

    /// Whether two rules are the same; two text rules are where their texts are.
    pub fn is_same(&self, other: &NaRule) -> bool
        ensures { result ≡ same_rule self.now other.now }
    {
        match (self, other) {
            (NaRule::Absent, NaRule::Absent) => true,
            (NaRule::Nan, NaRule::Nan) => true,
            (NaRule::Other, NaRule::Other) => true,
            (NaRule::Txt(a), NaRule::Txt(b)) => a.is_same(b),
            _ => false,
        }
    }
}

/// A descriptor of strings arrays: its rule of missing values, and whether setting converts numbers
/// and truth values to texts.
#[derive(Debug, Drop)]
pub struct Descr {
    pub na: NaRule,
    pub coerce: bool,
}
