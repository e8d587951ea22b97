ghost use Rattle.std.specs.Prelude.{◌≡◌, ◌+◌, ◌*◌, ◌≤◌, ◌++◌, [], length, replicate, IsUtf8, MatchResult, IfErr, List, ℕ, min};
ghost use Rattle.std.specs.List.{concat};
ghost use Rattle.std.specs.Str.{chars};
ghost use Rattle.sa_text.specs.Making.{made, FailsText, GivesText, RefusesSize};
ghost use Rattle.sa_text.specs.Texts.{most_bytes, text_size};

use crate::edit_error::EditError;
use crate::place::Place;
use crate::text::{MAX_BYTES, Text};
use std::alloc::Global;
use std::marker::Model;

/// A text that is being made of parts: its size comes first, and the room for it is taken at once.
/// Contracts see the code points so far, and how many bytes there is still room for.
#[derive(Drop)]
pub struct TextBuilder {
    alloc: Global,
    size: usize,
    place: Place,
}

impl Model for TextBuilder {
    ghost use Rattle.std.specs.Prelude.{◌-◌, ◌≤◌, length, IsUtf8};
    ghost use Rattle.std.specs.Str.{chars};
    ghost use Rattle.sa_text.specs.Making.{Draft};
    ghost use Rattle.sa_text.specs.Texts.{most_bytes};

    ghost Value = { Draft };

    ghost use Rattle.sa_text.specs.Building.{bytes_of, HasRoom};

    ghost view = { λ b. record { text = chars (bytes_of b.place); room = b.size - length (bytes_of b.place) } };

    ghost invariant = { λ b. IsUtf8 (bytes_of b.place) × HasRoom b.place b.size × (b.size ≤ most_bytes) };
}

impl TextBuilder {
    /// The empty text, with room for `size` bytes. More than 65,536 are too long, told before any memory
    /// is taken; up to 14 take none. `Memory` where there is no room. A text of that size is refused as
    /// its definition is, and where the size is too long any that is.
    #[inline]
    pub fn new(alloc: Global, size: usize) -> Result<TextBuilder, EditError>
        ensures begun { MatchResult result (λ b. (b ≡ record { text = []; room = size }) × (size ≤ most_bytes)) (λ error. RefusesSize error size) }
        ensures refused { IfErr result (λ error. (text : List ℕ) → min (text_size text) 65537 ≡ min size 65537 → FailsText error (made text)) }
    {
        if size > MAX_BYTES {
            return Err(EditError::TooLong);
        }
        match Place::new(alloc, size) {
            Ok(place) => Ok(TextBuilder { alloc, size, place }),
            Err(_) => Err(EditError::Memory),
        }
    }

    /// Puts UTF-8 at the end, for which there is room.
    #[inline]
    pub fn push(&mut self, part: &[u8])
        requires utf8 { IsUtf8 part.now }
        requires fits { length part.now ≤ self.old.room }
        ensures text { self.new.text ≡ self.old.text ++ chars part.now }
        ensures room { self.new.room + length part.now ≡ self.old.room }
    {
        self.place.push(part, self.size);
    }

    /// Puts UTF-8 at the end so many times, for which there is room.
    pub fn repeat(&mut self, part: &[u8], times: usize)
        requires utf8 { IsUtf8 part.now }
        requires fits { times * length part.now ≤ self.old.room }
        ensures text { self.new.text ≡ self.old.text ++ concat (replicate times (chars part.now)) }
        ensures room { self.new.room + times * length part.now ≡ self.old.room }
    {
        self.place.repeat(part, times, self.size);
    }

    /// The text that was made. Bytes in room of their own are not copied; `Memory` where there is none to
    /// share them.
    #[inline]
    pub fn finish(self) -> Result<Text, EditError>
        ensures { GivesText result (made self.text) }
    {
        match self.place.into_bytes(self.alloc, self.size) {
            Ok(bytes) => Ok(Text::from_shared(bytes)),
            Err(_) => Err(EditError::Memory),
        }
    }
}
