ghost use Rattle.std.specs.Prelude.{◌≡◌, ◌++◌, ◌≤◌, false, true, length, take};
ghost use Rattle.std.specs.List.{list_all, prefix_len};
ghost use Rattle.sa_runs.specs.Runs.{is_plain, begins_plain};

use crate::marks::{is_plain, marks_8, marks_16, marks_32};
use std::simd::{u8x8, u8x16, u8x32};

/// How many bytes at the front of a text are plain.
pub fn plain_len(text: &[u8]) -> usize
    ensures plain { result ≡ prefix_len is_plain text.now }
    ensures within { result ≤ length text.now }
    ensures front { list_all is_plain (take result text.now) ≡ true }
{
    let mut ran = 0usize;
    let mut rest = text;
    'vectors: while rest.len() >= 32 {
        let marks = marks_32(u8x32::from_slice(rest));
        if marks != 0 {
            return ran + marks.trailing_zeros() as usize;
        }
        ran += 32;
        rest = &rest[32..];
    }
    ran + plain_len_16(rest)
}

/// How many bytes at the front are plain, by a vector of 16.
fn plain_len_16(text: &[u8]) -> usize
    ensures plain { result ≡ prefix_len is_plain text.now }
    ensures within { result ≤ length text.now }
{
    if text.len() < 16 {
        return plain_len_8(text);
    }
    let marks = marks_16(u8x16::from_slice(text));
    if marks != 0 {
        return marks.trailing_zeros() as usize;
    }
    16 + plain_len_8(&text[16..])
}

/// How many bytes at the front are plain, by a vector of 8.
fn plain_len_8(text: &[u8]) -> usize
    ensures plain { result ≡ prefix_len is_plain text.now }
    ensures within { result ≤ length text.now }
{
    if text.len() < 8 {
        return plain_len_1(text);
    }
    let marks = marks_8(u8x8::from_slice(text));
    if marks != 0 {
        return marks.trailing_zeros() as usize;
    }
    8 + plain_len_1(&text[8..])
}

/// How many bytes at the front are plain, byte by byte.
fn plain_len_1(text: &[u8]) -> usize
    ensures plain { result ≡ prefix_len is_plain text.now }
    ensures within { result ≤ length text.now }
{
    let mut ran = 0usize;
    'bytes: while ran < text.len() && is_plain(text[ran]) {
        ran += 1;
    }
    ran
}

/// The plain bytes at the front, and what follows them. One byte is looked at alone first.
#[inline]
pub fn cut_run(bytes: &[u8]) -> (&[u8], &[u8])
    ensures cut { bytes.now ≡ result.0.now ++ result.1.now }
    ensures plain { list_all is_plain result.0.now ≡ true }
    ensures stops { begins_plain result.1.now ≡ false }
{
    if bytes.is_empty() || !is_plain(bytes[0]) {
        return bytes.split_at(0);
    }
    bytes.split_at(plain_len(bytes))
}
