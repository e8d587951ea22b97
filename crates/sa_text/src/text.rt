ghost use Rattle.std.specs.Prelude.{◌≡◌, ◌+◌, ◌≤◌, length, take, drop, IfOk, IsUtf8, encode_utf8_all};
ghost use Rattle.std.specs.Char.{is_ascii};
ghost use Rattle.std.specs.List.{list_all};
ghost use Rattle.std.specs.Str.{chars, bytes_eq};
ghost use Rattle.sa_text.specs.Texts.{Gives, text_of, text_size, most_bytes};

use crate::text_error::TextError;
use sa_base::Memory;
use sa_bytes::{Block, SharedBytes};
use std::alloc::Global;
use std::marker::Model;

/// The most bytes that one text has.
pub const MAX_BYTES: usize = 65_536;

/// The most bytes that are looked at one by one.
const SHORT: usize = 16;

/// A text: UTF-8 of at most 65,536 bytes, which its copies share. Contracts see its code points, in
/// order.
#[derive(Debug, Drop)]
pub struct Text {
    bytes: SharedBytes,
}

impl Model for Text {
    ghost use Rattle.std.specs.Prelude.{List, ℕ, ◌≤◌, length, IsUtf8};
    ghost use Rattle.std.specs.Str.{chars};
    ghost use Rattle.sa_text.specs.Texts.{most_bytes};

    ghost Value = { List ℕ };

    ghost view = { λ t. chars t.bytes };

    ghost invariant = { λ t. IsUtf8 t.bytes × (length t.bytes ≤ most_bytes) };
}

impl Text {
    /// The text that the bytes are. More than 65,536 bytes are too long; at most that many that are
    /// not UTF-8 are refused as such.
    pub fn from_bytes(alloc: Global, bytes: &[u8]) -> Result<Text, TextError>
        ensures { Gives result (text_of bytes.now) }
    {
        if bytes.len() > MAX_BYTES {
            return Err(TextError::TooLong);
        }
        if !simdutf8::is_utf8(bytes) {
            return Err(TextError::NotUtf8);
        }
        match SharedBytes::from_slice(alloc, bytes) {
            Ok(bytes) => Ok(Text { bytes }),
            Err(_) => Err(TextError::Memory),
        }
    }

    /// The text that the first `size` bytes of a slice are, as `from_bytes` answers it. Bytes behind them
    /// may be read, and count for nothing. Short ASCII is told by itself.
    #[inline(always)]
    pub fn of_front(alloc: Global, bytes: &[u8], size: usize) -> Result<Text, TextError>
        requires { size ≤ length bytes.now }
        ensures { Gives result (text_of (take size bytes.now)) }
    {
        if size <= SHORT && is_ascii(&bytes[..size]) {
            let Ok(text) = Text::from_front(alloc, bytes, size) else {
                return Err(TextError::Memory);
            };
            return Ok(text);
        }
        Text::from_bytes(alloc, &bytes[..size])
    }

    /// The text of UTF-8 of at most 65,536 bytes, which is not tested again. `Memory` where there is no
    /// memory for it.
    #[inline]
    pub fn from_utf8(alloc: Global, bytes: &[u8]) -> Result<Text, Memory>
        requires utf8 { IsUtf8 bytes.now }
        requires short { length bytes.now ≤ most_bytes }
        ensures { IfOk result (λ t. t ≡ chars bytes.now) }
    {
        let bytes = SharedBytes::from_slice(alloc, bytes)?;
        Ok(Text { bytes })
    }

    /// The text of the first `size` bytes of a slice, which are UTF-8 and at most 65,536. Bytes behind
    /// them may be read, and count for nothing. `Memory` where there is no memory for the text.
    #[inline(always)]
    pub fn from_front(alloc: Global, bytes: &[u8], size: usize) -> Result<Text, Memory>
        requires within { size ≤ length bytes.now }
        requires utf8 { IsUtf8 (take size bytes.now) }
        requires short { size ≤ most_bytes }
        ensures { IfOk result (λ t. t ≡ chars (take size bytes.now)) }
    {
        let bytes = SharedBytes::from_front(alloc, bytes, size)?;
        Ok(Text { bytes })
    }

    /// The text of a part of a block, whose bytes are UTF-8 and at most 65,536. It takes no memory;
    /// `Memory` means that the block has too many parts to be counted.
    #[inline]
    pub fn of_part(block: &Block, start: usize, size: usize) -> Result<Text, Memory>
        requires within { start + size ≤ length block.now }
        requires utf8 { IsUtf8 (take size (drop start block.now)) }
        requires short { size ≤ most_bytes }
        ensures { IfOk result (λ t. t ≡ chars (take size (drop start block.now))) }
    {
        let bytes = block.part(start, size)?;
        Ok(Text { bytes })
    }

    /// The text of bytes that are UTF-8 and at most 65,536, which are not tested again. It takes no memory.
    #[inline]
    pub fn from_shared(bytes: SharedBytes) -> Text
        requires utf8 { IsUtf8 bytes }
        requires short { length bytes ≤ most_bytes }
        ensures { result ≡ chars bytes }
    {
        Text { bytes }
    }

    /// The text of `size` of its bytes from a place on, which are UTF-8. It takes no memory; `Memory`
    /// means that there are too many copies to be counted.
    #[inline]
    pub fn part(&self, start: usize, size: usize) -> Result<Text, Memory>
        requires within { start + size ≤ text_size self.now }
        requires utf8 { IsUtf8 (take size (drop start (encode_utf8_all self.now))) }
        ensures { IfOk result (λ t. t ≡ chars (take size (drop start (encode_utf8_all self.now)))) }
    {
        let bytes = self.bytes.part(start, size)?;
        Ok(Text { bytes })
    }

    /// The same text once more. It takes no memory; `Memory` means that there are too many copies to be
    /// counted.
    #[inline]
    pub fn copy(&self, _alloc: Global) -> Result<Text, Memory>
        ensures { IfOk result (λ t. t ≡ self.now) }
    {
        let bytes = self.bytes.copy()?;
        Ok(Text { bytes })
    }

    /// The text's UTF-8.
    #[inline]
    pub fn as_bytes(&self) -> &[u8]
        ensures points { chars result.now ≡ self.now }
        ensures bytes { result.now ≡ encode_utf8_all self.now }
        ensures utf8 { IsUtf8 result.now }
        ensures short { length result.now ≤ most_bytes }
    {
        self.bytes.as_slice()
    }

    /// How many bytes the text's UTF-8 has. None of them is read.
    #[inline]
    pub fn size(&self) -> usize
        ensures size { result ≡ text_size self.now }
        ensures most { result ≤ most_bytes }
    {
        self.bytes.len()
    }

    /// The text's UTF-8, handed out. It takes no memory.
    #[inline]
    pub fn into_bytes(self) -> SharedBytes
        ensures points { chars result ≡ self }
        ensures bytes { result ≡ encode_utf8_all self }
        ensures utf8 { IsUtf8 result }
        ensures short { length result ≤ most_bytes }
    {
        self.bytes
    }

    /// Whether two texts are the same.
    #[inline]
    pub fn is_same(&self, other: &Text) -> bool
        ensures { result ≡ bytes_eq self.now other.now }
    {
        self.bytes.is_same(&other.bytes)
    }
}

/// Whether all bytes are ASCII.
#[inline(always)]
fn is_ascii(bytes: &[u8]) -> bool
    ensures { result ≡ list_all is_ascii bytes.now }
{
    bytes.iter().all(|byte| *byte < 128)
}
