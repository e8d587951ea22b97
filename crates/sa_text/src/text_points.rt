ghost use Rattle.std.specs.Prelude.{◌≡◌, ◌+◌, ◌≤◌, ◌<◌, true, length, slice_index, slice_range, encode_utf8, encode_utf8_all, IsUtf8};
ghost use Rattle.sa_text.specs.Points.{byte_of, points_before, is_cut};
ghost use Rattle.sa_text.specs.Texts.{text_size, most_bytes};

use crate::points::{count_leads, first_point, is_lead, offset_of, split_points};
use crate::text::Text;

impl Text {
    /// How many code points the text has.
    #[inline]
    pub fn count_points(&self) -> u32
        ensures points { result ≡ length self.now }
        ensures most { result ≤ most_bytes }
    {
        count_leads(self.as_bytes())
    }

    /// Whether a code point begins at byte `at`, or the text ends there.
    #[inline]
    pub fn is_char_boundary(&self, at: u32) -> bool
        requires { at ≤ text_size self.now }
        ensures { result ≡ is_cut self.now at }
    {
        let bytes = self.as_bytes();
        let at = at as usize;
        if at == bytes.len() {
            return true;
        }
        is_lead(bytes[at])
    }

    /// The code point that begins at byte `at`, and the byte after it.
    #[inline]
    pub fn point_at(&self, at: u32) -> (char, u32)
        requires within { at < text_size self.now }
        requires begins { is_cut self.now at ≡ true }
        ensures point { result.0 ≡ slice_index self.now (points_before self.now at) }
        ensures after { result.1 ≡ at + length (encode_utf8 result.0) }
    {
        let (_, rest) = self.as_bytes().split_at(at as usize);
        let Some((point, _)) = first_point(rest) else {
            unreachable!()
        };
        (point, at + point.len_utf8() as u32)
    }

    /// The byte where the code point at place `k` begins; for `k` the count of code points the count of
    /// bytes; none above it.
    #[inline]
    pub fn byte_of_point(&self, k: u32) -> Option<u32>
        ensures { result ≡ byte_of self.now k }
    {
        let at = offset_of(self.as_bytes(), k)?;
        Some(at as u32)
    }

    /// How many code points begin before byte `at`: the place of the code point that begins there, where
    /// one does.
    #[inline]
    pub fn points_before(&self, at: u32) -> u32
        requires { at ≤ text_size self.now }
        ensures { result ≡ points_before self.now at }
    {
        let (front, _) = self.as_bytes().split_at(at as usize);
        count_leads(front)
    }

    /// The UTF-8 of the code points from place `s` to place `e`, which is not among them.
    pub fn span(&self, s: u32, e: u32) -> &[u8]
        requires order { s ≤ e }
        requires within { e ≤ length self.now }
        ensures bytes { result.now ≡ encode_utf8_all (slice_range self.now s e) }
        ensures utf8 { IsUtf8 result.now }
    {
        let Some((_, rest)) = split_points(self.as_bytes(), s) else {
            unreachable!()
        };
        let Some((span, _)) = split_points(rest, e - s) else {
            unreachable!()
        };
        span
    }
}
