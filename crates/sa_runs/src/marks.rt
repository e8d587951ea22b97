ghost use Rattle.std.specs.Prelude.{◌≡◌, length, map};
ghost use Rattle.std.specs.Simd.Lanes.{mask_l};
ghost use Rattle.sa_runs.specs.Runs.{is_marked, is_plain};

use std::simd::{u8x8, u8x16, u8x32};

/// Whether a byte stands for itself between quotation marks: it is no quotation mark, no backslash, not
/// below 32 and not 127.
pub fn is_plain(byte: u8) -> bool
    ensures { result ≡ is_plain byte }
{
    byte >= 0x20 && byte != b'"' && byte != b'\\' && byte != 0x7f
}

/// One bit for each of 32 bytes, the first the lowest: whether the byte is not plain.
pub fn marks_32(bytes: u8x32) -> u64
    requires { length bytes ≡ 32 }
    ensures { result ≡ mask_l (map is_marked bytes) }
{
    let quotes = bytes.simd_eq(u8x32::splat(b'"'));
    let backslashes = bytes.simd_eq(u8x32::splat(b'\\'));
    let deletes = bytes.simd_eq(u8x32::splat(0x7f));
    let controls = bytes.simd_lt(u8x32::splat(0x20));
    (quotes | backslashes | deletes | controls).to_bitmask()
}

/// One bit for each of 16 bytes, as `marks_32`.
pub fn marks_16(bytes: u8x16) -> u64
    requires { length bytes ≡ 16 }
    ensures { result ≡ mask_l (map is_marked bytes) }
{
    let quotes = bytes.simd_eq(u8x16::splat(b'"'));
    let backslashes = bytes.simd_eq(u8x16::splat(b'\\'));
    let deletes = bytes.simd_eq(u8x16::splat(0x7f));
    let controls = bytes.simd_lt(u8x16::splat(0x20));
    (quotes | backslashes | deletes | controls).to_bitmask()
}

/// One bit for each of 8 bytes, as `marks_32`.
pub fn marks_8(bytes: u8x8) -> u64
    requires { length bytes ≡ 8 }
    ensures { result ≡ mask_l (map is_marked bytes) }
{
    let quotes = bytes.simd_eq(u8x8::splat(b'"'));
    let backslashes = bytes.simd_eq(u8x8::splat(b'\\'));
    let deletes = bytes.simd_eq(u8x8::splat(0x7f));
    let controls = bytes.simd_lt(u8x8::splat(0x20));
    (quotes | backslashes | deletes | controls).to_bitmask()
}
