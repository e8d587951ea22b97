ghost use Rattle.std.specs.Prelude.{◌≡◌};
ghost use Rattle.sa_descr.specs.Missing.{miss_of};

use crate::descr::NaRule;

/// Calls by what they make of a missing text.
#[derive(Clone, Copy, Debug, PartialEq, Eq)]
pub enum MissGroup {
    /// Calls that make texts.
    Makes,
    /// Comparisons but for `not_equal`.
    Orders,
    /// `not_equal`.
    Differs,
    /// Tests of texts.
    Tests,
    /// Searches.
    Searches,
    /// The cast to truth values.
    Truth,
    /// The other casts away from texts.
    Leaves,
}

/// What comes of an element in which a text is missing.
#[derive(Clone, Copy, Debug, PartialEq, Eq)]
pub enum Miss {
    /// The result is missing.
    Gone,
    /// Each missing text is the rule's text.
    AsText,
    /// The result is false.
    No,
    /// The result is true.
    Yes,
    /// The call is refused.
    Refuse,
}

/// What comes of an element of a call of this group in which a text is missing, under this rule.
pub fn miss_of(group: MissGroup, rule: &NaRule) -> Miss
    ensures { result ≡ miss_of group rule.now }
{
    match (rule, group) {
        (NaRule::Absent | NaRule::Other, _) => Miss::Refuse,
        (NaRule::Txt(_), _) => Miss::AsText,
        (NaRule::Nan, MissGroup::Makes) => Miss::Gone,
        (NaRule::Nan, MissGroup::Orders | MissGroup::Tests) => Miss::No,
        (NaRule::Nan, MissGroup::Differs | MissGroup::Truth) => Miss::Yes,
        (NaRule::Nan, MissGroup::Searches | MissGroup::Leaves) => Miss::Refuse,
    }
}
