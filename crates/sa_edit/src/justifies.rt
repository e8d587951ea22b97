ghost use Rattle.std.specs.Prelude.{◌≡◌, ◌≤◌, length, IsUtf8};
ghost use Rattle.std.specs.Str.{chars};
ghost use Rattle.sa_text.specs.Making.{made, GivesText};
ghost use Rattle.sa_edit.specs.Justifies.{left_of, center, ljust, rjust, zfill, sign_length};

use crate::padding::{at_least_zero, missing, pad_text, put_zeros, shared};
use sa_text::{EditError, Text, first_point, split_points};
use std::alloc::Global;

/// The text in the middle of `width` code points, as Python's `str.center`: of an odd number of fills the
/// one more stands in front where the width is odd, and behind where it is even. `TooLong` where that has
/// more than 65,536 bytes.
pub fn center(alloc: Global, a: &Text, width: i64, fill: char) -> Result<Text, EditError>
    ensures { GivesText result (made (center a.now width fill)) }
{
    let pad = missing(a, width);
    pad_text(alloc, a, fill, left_of(pad, at_least_zero(width)), pad)
}

/// The text with fills behind it up to `width` code points, as Python's `str.ljust`. `TooLong` where that
/// has more than 65,536 bytes.
pub fn ljust(alloc: Global, a: &Text, width: i64, fill: char) -> Result<Text, EditError>
    ensures { GivesText result (made (ljust a.now width fill)) }
{
    pad_text(alloc, a, fill, 0, missing(a, width))
}

/// The text with fills in front of it up to `width` code points, as Python's `str.rjust`. `TooLong` where
/// that has more than 65,536 bytes.
pub fn rjust(alloc: Global, a: &Text, width: i64, fill: char) -> Result<Text, EditError>
    ensures { GivesText result (made (rjust a.now width fill)) }
{
    let pad = missing(a, width);
    pad_text(alloc, a, fill, pad, pad)
}

/// The text with zeros up to `width` code points, as Python's `str.zfill`: behind a `+` or `-` that it
/// begins with, else in front. `TooLong` where that has more than 65,536 bytes.
pub fn zfill(alloc: Global, a: &Text, width: i64) -> Result<Text, EditError>
    ensures { GivesText result (made (zfill a.now width)) }
{
    let pad = missing(a, width);
    if pad == 0 {
        return shared(alloc, a);
    }
    let bytes = a.as_bytes();
    let Some((sign, rest)) = split_points(bytes, sign_length(bytes)) else {
        unreachable!()
    };
    put_zeros(alloc, sign, pad, rest)
}

/// How many of the missing code points stand in front of a text in the middle of a width.
#[inline]
fn left_of(pad: usize, width: usize) -> usize
    ensures left { result ≡ left_of pad width }
    ensures most { result ≤ pad }
{
    if pad % 2 == 1 && width % 2 == 1 {
        pad / 2 + 1
    } else {
        pad / 2
    }
}

/// How many code points the sign has that UTF-8 begins with.
#[inline]
fn sign_length(bytes: &[u8]) -> u32
    requires { IsUtf8 bytes.now }
    ensures sign { result ≡ sign_length (chars bytes.now) }
    ensures most { result ≤ length (chars bytes.now) }
{
    match first_point(bytes) {
        Some(('+' | '-', _)) => 1,
        _ => 0,
    }
}
