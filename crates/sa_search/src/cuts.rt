ghost use Rattle.std.specs.Prelude.{◌<◌, length, MatchOption, IsUtf8};
ghost use Rattle.std.specs.Str.{chars};
ghost use Rattle.sa_search.specs.Cuts.{IsCutFirst, IsCutLast, StandsNowhere};

use memchr::memmem;
use memchr::memmem::Finder;

/// UTF-8 before the first place where a part that is not empty stands in it, and behind that place; none
/// where it stands nowhere.
#[inline]
pub(crate) fn cut_first<'a>(part: &Finder<'_>, bytes: &'a [u8]) -> Option<(&'a [u8], &'a [u8])>
    requires utf8 { IsUtf8 bytes.now }
    requires part_utf8 { IsUtf8 part.now }
    requires some { 0 < length part.now }
    ensures { MatchOption result (StandsNowhere (chars bytes.now) (chars part.now)) (λ cut. IsCutFirst bytes.now (chars part.now) cut.0.now cut.1.now) }
{
    let at = part.find(bytes)?;
    let (first, rest) = bytes.split_at(at);
    let (_, behind) = rest.split_at(part.needle().len());
    Some((first, behind))
}

/// UTF-8 before the last place where a part that is not empty stands in it; none where it stands nowhere.
#[inline]
pub(crate) fn cut_last<'a>(part: &[u8], bytes: &'a [u8]) -> Option<&'a [u8]>
    requires utf8 { IsUtf8 bytes.now }
    requires part_utf8 { IsUtf8 part.now }
    requires some { 0 < length part.now }
    ensures { MatchOption result (StandsNowhere (chars bytes.now) (chars part.now)) (λ first. IsCutLast bytes.now (chars part.now) first.now) }
{
    let at = memmem::rfind(bytes, part)?;
    let (first, _) = bytes.split_at(at);
    Some(first)
}
