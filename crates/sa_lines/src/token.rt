ghost use Rattle.std.specs.Prelude.{◌≡◌, ◌<◌, ◌++◌, ◌∷◌, [], Some, length, MatchOption, IfSome};
ghost use Rattle.sa_lines.specs.Tokens.{tokens_of, ends, after, leads};
ghost use Rattle.sa_lines.specs.TokenSteps.{state_of};

use crate::bytes::first;
use crate::line::{is_blank, skip_blanks};
use sa_runs::cut_run;

/// Where a byte of a line stands.
#[derive(Clone, Copy, Debug)]
enum TokenState {
    /// Between two tokens, or before the first.
    Between,
    /// In a token, and in no quoted text.
    Inside,
    /// In a quoted text.
    Quoted,
    /// In a quoted text, behind a backslash.
    Escaped,
}

/// Whether a byte that stands there ends a token, or stands between two.
fn ends(state: TokenState, byte: u8) -> bool
    ensures { result ≡ ends (state_of state) byte }
{
    match state {
        TokenState::Between | TokenState::Inside => is_blank(byte),
        TokenState::Quoted | TokenState::Escaped => false,
    }
}

/// Where the byte after one stands that ends no token.
fn after(state: TokenState, byte: u8) -> TokenState
    ensures { state_of result ≡ after (state_of state) byte }
{
    match (state, byte) {
        (TokenState::Between | TokenState::Inside, b'"') => TokenState::Quoted,
        (TokenState::Between | TokenState::Inside, _) => TokenState::Inside,
        (TokenState::Quoted, b'"') => TokenState::Inside,
        (TokenState::Quoted, b'\\') => TokenState::Escaped,
        (TokenState::Quoted | TokenState::Escaped, _) => TokenState::Quoted,
    }
}

/// Bytes at the front that end no token and leave the state as it is, and those behind them. In a
/// quoted text these are the plain bytes.
#[inline]
fn cut_kept(state: TokenState, bytes: &[u8]) -> (&[u8], &[u8])
    ensures cut { bytes.now ≡ result.0.now ++ result.1.now }
    ensures kept { leads (state_of state) result.0.now ≡ Some (state_of state) }
{
    match state {
        TokenState::Quoted => cut_run(bytes),
        TokenState::Between | TokenState::Inside | TokenState::Escaped => bytes.split_at(0),
    }
}

/// The first token and what follows it; none where the line has no token.
pub fn next_token(line: &[u8]) -> Option<(&[u8], &[u8])>
    ensures cut { MatchOption result (tokens_of line.now ≡ []) (λ x. tokens_of line.now ≡ x.0.now ∷ tokens_of x.1.now) }
    ensures shorter { IfSome result (λ x. length x.1.now < length line.now) }
{
    let begun = skip_blanks(line);
    if begun.is_empty() {
        return None;
    }
    let mut state = TokenState::Between;
    let mut end = 0usize;
    let mut rest = begun;
    'bytes: while let Some((byte, others)) = first(rest) {
        if ends(state, byte) {
            break;
        }
        state = after(state, byte);
        let (kept, behind) = cut_kept(state, others);
        rest = behind;
        end += 1 + kept.len();
    }
    Some((&begun[..end], rest))
}
