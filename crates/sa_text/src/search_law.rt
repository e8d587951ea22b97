ghost use Rattle.sa_text.specs.Searches.{SearchesBytes};

/// Where the bytes of a text stand in those of another its code points stand: a search by bytes finds
/// what a search by code points does. The call does nothing; its contract is the law, for proofs to cite.
pub fn searches_bytes()
    ensures { SearchesBytes }
{}
