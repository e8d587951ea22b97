ghost use Rattle.std.specs.Prelude.{◌≡◌, ◌+◌, ◌≤◌, ◌<◌, ◌++◌, ◌∷◌, [], length, take, IfSome, MatchOption, IsUtf8, encode_utf8, count_by};
ghost use Rattle.std.specs.Str.{chars};
ghost use Rattle.sa_text.specs.Points.{is_lead, byte_of, AreParts};
ghost use Rattle.sa_text.specs.Texts.{most_bytes};

/// How many bytes are counted at once where only their number counts.
const PIECE: usize = 64;

/// Whether a byte of UTF-8 begins a code point.
#[inline(always)]
pub(crate) const fn is_lead(byte: u8) -> bool
    ensures { result ≡ is_lead byte }
{
    byte < 128 || byte >= 192
}

/// How many of at most 65,536 bytes begin a code point: of UTF-8 the count of its code points.
#[inline]
pub fn count_leads(bytes: &[u8]) -> u32
    requires { length bytes.now ≤ most_bytes }
    ensures leads { result ≡ count_by is_lead bytes.now }
    ensures most { result ≤ length bytes.now }
{
    let mut count = 0;
    for byte in bytes {
        if is_lead(*byte) {
            count += 1;
        }
    }
    count
}

/// A place in whole pieces of the bytes before which at most `k` code points begin, and how many of the
/// `k` are left there.
fn skip_pieces(bytes: &[u8], k: u32) -> (usize, u32)
    ensures within { result.0 ≤ length bytes.now }
    ensures left { result.1 + count_by is_lead (take result.0 bytes.now) ≡ k }
{
    let mut at = 0;
    let mut left = k;
    while bytes.len() - at >= PIECE {
        let count = count_leads(&bytes[at..at + PIECE]);
        if count > left {
            break;
        }
        left -= count;
        at += PIECE;
    }
    (at, left)
}

/// The byte where the code point at place `k` of UTF-8 begins; for `k` the count of code points the count
/// of bytes; none above it. Bytes are looked at one by one only near the place.
pub fn offset_of(bytes: &[u8], k: u32) -> Option<usize>
    requires { IsUtf8 bytes.now }
    ensures at { result ≡ byte_of (chars bytes.now) k }
    ensures within { IfSome result (λ at. at ≤ length bytes.now) }
{
    let (start, mut left) = skip_pieces(bytes, k);
    for at in start..bytes.len() {
        if is_lead(bytes[at]) {
            if left == 0 {
                return Some(at);
            }
            left -= 1;
        }
    }
    if left == 0 { Some(bytes.len()) } else { None }
}

/// UTF-8 before its code point at place `k`, and from it on; none where it has fewer than `k` code points.
#[inline]
pub fn split_points(bytes: &[u8], k: u32) -> Option<(&[u8], &[u8])>
    requires { IsUtf8 bytes.now }
    ensures { MatchOption result (length (chars bytes.now) < k) (λ parts. AreParts bytes.now k parts.0.now parts.1.now) }
{
    let at = offset_of(bytes, k)?;
    Some(bytes.split_at(at))
}

/// The first code point of UTF-8, and the bytes behind it; none where there are no bytes.
#[inline]
pub fn first_point(bytes: &[u8]) -> Option<(char, &[u8])>
    requires { IsUtf8 bytes.now }
    ensures cut { MatchOption result (chars bytes.now ≡ []) (λ x. chars bytes.now ≡ x.0 ∷ chars x.1.now) }
    ensures bytes { IfSome result (λ x. bytes.now ≡ encode_utf8 x.0 ++ x.1.now) }
    ensures utf8 { IfSome result (λ x. IsUtf8 x.1.now) }
    ensures shorter { IfSome result (λ x. length x.1.now < length bytes.now) }
{
    let mut points = unsafe { str::from_utf8_unchecked(bytes) }.chars();
    let first = points.next()?;
    Some((first, points.as_str().as_bytes()))
}

/// The last code point of UTF-8, and the bytes before it; none where there are no bytes.
#[inline]
pub fn last_point(bytes: &[u8]) -> Option<(char, &[u8])>
    requires { IsUtf8 bytes.now }
    ensures cut { MatchOption result (chars bytes.now ≡ []) (λ x. chars bytes.now ≡ chars x.1.now ++ x.0 ∷ []) }
    ensures bytes { IfSome result (λ x. bytes.now ≡ x.1.now ++ encode_utf8 x.0) }
    ensures utf8 { IfSome result (λ x. IsUtf8 x.1.now) }
    ensures shorter { IfSome result (λ x. length x.1.now < length bytes.now) }
{
    let mut points = unsafe { str::from_utf8_unchecked(bytes) }.chars();
    let last = points.next_back()?;
    Some((last, points.as_str().as_bytes()))
}
