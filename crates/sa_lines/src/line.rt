ghost use Rattle.std.specs.Prelude.{◌≡◌, ◌<◌, ◌≤◌, ◌∷◌, length};
ghost use Rattle.std.specs.List.{prefix_len};
ghost use Rattle.std.specs.Str.Lines.{strip_carriage_return};
ghost use Rattle.sa_lines.specs.Lines.{lines_of, is_skipped, is_blank};
ghost use Rattle.sa_lines.specs.Tokens.{tokens_of};

use crate::bytes::first;
use memchr::memchr;

/// Whether the byte is a space or a tab.
pub fn is_blank(byte: u8) -> bool
    ensures { result ≡ is_blank byte }
{
    byte == b' ' || byte == b'\t'
}

/// The first line and what follows it. A line ends with a line feed, and a carriage return just
/// before it is dropped; the last line may lack its line feed.
pub fn cut_line(bytes: &[u8]) -> (&[u8], &[u8])
    requires { 0 < length bytes.now }
    ensures cut { lines_of bytes.now ≡ result.0.now ∷ lines_of result.1.now }
    ensures shorter { length result.1.now < length bytes.now }
{
    match memchr(b'\n', bytes) {
        Some(at) => (without_return(&bytes[..at]), &bytes[at + 1..]),
        None => (bytes, &bytes[bytes.len()..]),
    }
}

/// The line without a carriage return at its end.
fn without_return(line: &[u8]) -> &[u8]
    ensures { result.now ≡ strip_carriage_return line.now }
{
    match line.last() {
        Some(b'\r') => &line[..line.len() - 1],
        _ => line,
    }
}

/// Whether a line is skipped: it has blanks alone, or its first byte that is none is `#`.
pub fn is_skipped(line: &[u8]) -> bool
    ensures { result ≡ is_skipped line.now }
{
    match first(skip_blanks(line)) {
        Some((byte, _)) => byte == b'#',
        None => true,
    }
}

/// The line from its first byte on that is no blank.
pub fn skip_blanks(line: &[u8]) -> &[u8]
    ensures stops { prefix_len is_blank result.now ≡ 0 }
    ensures skips { is_skipped line.now ≡ is_skipped result.now }
    ensures tokens { tokens_of line.now ≡ tokens_of result.now }
    ensures within { length result.now ≤ length line.now }
{
    let mut rest = line;
    while let Some((byte, after)) = first(rest) {
        if !is_blank(byte) {
            break;
        }
        rest = after;
    }
    rest
}
