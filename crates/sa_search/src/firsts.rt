ghost use Rattle.sa_search.specs.Firsts.{CountsFirst, ReplacesFirst};

/// What is counted and replaced is what is found from the left, each time behind the end of the one
/// before. The call does nothing; its contract is the two laws, for proofs to cite.
pub fn takes_first()
    ensures counts { CountsFirst }
    ensures replaces { ReplacesFirst }
{}
