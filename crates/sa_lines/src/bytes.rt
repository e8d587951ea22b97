ghost use Rattle.std.specs.Prelude.{◌≡◌, ◌∷◌, [], MatchOption};
ghost use Rattle.sa_lines.specs.Tokens.{is_word};

/// The first byte and those after it; none of no bytes.
pub fn first(bytes: &[u8]) -> Option<(u8, &[u8])>
    ensures cut { MatchOption result (bytes.now ≡ []) (λ x. bytes.now ≡ x.0 ∷ x.1.now) }
{
    let (byte, rest) = bytes.split_first()?;
    Some((*byte, rest))
}

/// Whether a token is this word.
pub fn is_word(word: &[u8], token: &[u8]) -> bool
    ensures { result ≡ is_word word.now token.now }
{
    token == word
}
