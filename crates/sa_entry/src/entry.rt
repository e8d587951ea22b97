ghost use Rattle.std.specs.Prelude.{◌≡◌, ◌≤◌, ◌<◌, ◌++◌, ◌∷◌, [], length, true, false, Option, Some, IfSome, IfNone, IsTrue, ◌↔◌};
ghost use Rattle.sa_entry.specs.Slots.{Slot, Fresh, Inline, InArena, Outside, Missing, IsSlot, spelling, form_of, HasFormSizes, is_inside, inside_bytes, slot_size, word, size_bytes, least_outer, most_outer, most_short, IsOuterSize, IsReading};
ghost use Rattle.sa_entry.specs.Readings.{slot_of, first_word, size_in, IsSpelling};

use crate::form::Form;
use std::marker::Model;
use std::mem::size_of;

/// The last byte of a slot that was never written.
const FRESH: u8 = 0x00;

/// The last byte of an entry in the arena behind a short prefix.
const ARENA_SHORT: u8 = 0x40;

/// The last byte of an entry in the arena behind a long prefix.
const ARENA_LONG: u8 = 0x50;

/// The last byte of an inline entry, less its size.
const INLINE: u8 = 0x60;

/// The last byte of an inline entry of 15 bytes.
const INLINE_LONGEST: u8 = 0x6f;

/// The last byte of an entry outside the arena.
const OUTSIDE: u8 = 0x70;

/// The last byte of a missing value.
const MISSING: u8 = 0xc0;

const _: () = prove!(size_of::<Entry>() == 16);

/// A slot of sixteen bytes that spells a form. Contracts see what it says, with the bytes of a text
/// inside it.
#[derive(Clone, Copy, Debug)]
pub struct Entry {
    bytes: [u8; 16],
}

impl Model for Entry {
    ghost use Rattle.sa_entry.specs.Slots.{Slot, spelling};
    ghost use Rattle.sa_entry.specs.Readings.{slot_of, IsSpelling};
    ghost use Rattle.sa_entry.specs.Inside.{entry_again};

    ghost Value = { Slot };

    ghost view = { λ e. slot_of e.bytes };

    ghost invariant = { λ e. IsSpelling e.bytes };

    ghost inverse = { λ slot. record { bytes = spelling slot } };

    ghost inverse_ok = { λ e h. entry_again e h };
}

impl Entry {
    /// The slot of an entry that was never written.
    pub fn fresh() -> Entry
        ensures { result ≡ Fresh }
    {
        Entry { bytes: [0; 16] }
    }

    /// The slot of a missing value.
    pub fn missing() -> Entry
        ensures { result ≡ Missing }
    {
        let mut bytes = [0; 16];
        bytes[15] = MISSING;
        Entry { bytes }
    }

    /// The slot with a text of at most 15 bytes in it.
    pub fn inline(bytes: &[u8]) -> Entry
        requires { length bytes.now < least_outer }
        ensures { result ≡ Inline bytes.now }
    {
        let mut slot = [0; 16];
        slot[..bytes.len()].copy_from_slice(bytes);
        slot[15] = INLINE + bytes.len() as u8;
        Entry { bytes: slot }
    }

    /// Makes this the slot with a text of at most 15 bytes in it, where it stands.
    #[inline(always)]
    pub fn set_inline(&mut self, bytes: &[u8])
        requires { length bytes.now < least_outer }
        ensures { self.new ≡ Inline bytes.now }
    {
        self.bytes = [0; 16];
        self.bytes[..bytes.len()].copy_from_slice(bytes);
        self.bytes[15] = INLINE + bytes.len() as u8;
    }

    /// The slot of a text in the arena: `at` is the place of its first byte there, `size` how many
    /// bytes it has, 16 to 65,536, and `long` says that the prefix in front of it is a word. Behind a
    /// short prefix a text has at most 255 bytes.
    pub fn in_arena(at: u64, size: u64, long: bool) -> Entry
        requires size { IsOuterSize size }
        requires short { long ≡ false → size ≤ most_short }
        ensures { result ≡ InArena at size long }
    {
        let flags = if long { ARENA_LONG } else { ARENA_SHORT };
        Entry {
            bytes: two_words(at, size, flags),
        }
    }

    /// The slot of a text outside the arena, under a key, with its size in bytes, 16 to 65,536.
    pub fn outside(key: u64, size: u64) -> Entry
        requires { IsOuterSize size }
        ensures { result ≡ Outside key size }
    {
        Entry {
            bytes: two_words(key, size, OUTSIDE),
        }
    }

    /// What the slot says, without the bytes of a text inside it. Each size is one that its form may
    /// have.
    #[inline]
    pub fn form(&self) -> Form
        ensures form { result ≡ form_of self.now }
        ensures sizes { HasFormSizes result }
    {
        form_in(&self.bytes)
    }

    /// How many bytes the slot's text has: 0 where it is fresh or missing. No byte of the text is read.
    #[inline(always)]
    pub fn size(&self) -> u64
        ensures size { result ≡ slot_size self.now }
        ensures most { result ≤ most_outer }
    {
        match self.form() {
            Form::Fresh => 0,
            Form::Inline { size } => size as u64,
            Form::Arena { size, .. } => size,
            Form::Outside { size, .. } => size,
            Form::Missing => 0,
        }
    }

    /// The bytes of the text inside the slot, at most 15: of an inline entry its text, of a fresh one
    /// none.
    pub fn inline_bytes(&self) -> &[u8]
        requires { is_inside self.now ≡ true }
        ensures { result.now ≡ inside_bytes self.now }
    {
        // A fresh slot has no flags, and so the size 0.
        let size = self.bytes[15] % 16;
        &self.bytes[..size as usize]
    }

    /// The sixteen bytes of the slot; they read as the entry and as nothing else.
    pub fn bytes(&self) -> [u8; 16]
        ensures spelling { result ≡ spelling self.now }
        ensures again { (read : Option Slot) → IsReading result read → read ≡ Some self.now }
    {
        self.bytes
    }

    /// The slot that the bytes spell; none exactly where they are no spelling.
    pub fn read(bytes: [u8; 16]) -> Option<Entry>
        ensures spelled { IfSome result (λ slot. IsSlot slot × (spelling slot ≡ bytes)) }
        ensures again { IsReading bytes result }
    {
        // The slot is spelled anew, so no rule of the spelling stands here a second time.
        let entry = likely(&bytes)?;
        if entry.bytes == bytes {
            Some(entry)
        } else {
            None
        }
    }
}

/// What the bytes of a spelling say, without the bytes of a text inside them.
#[inline(always)]
fn form_in(bytes: &[u8; 16]) -> Form
    requires { IsSpelling bytes.now }
    ensures { result ≡ form_of (slot_of bytes.now) }
{
    match bytes[15] {
        FRESH => Form::Fresh,
        MISSING => Form::Missing,
        ARENA_SHORT => Form::Arena {
            at: word_in(bytes),
            size: size_in(bytes),
            long: false,
        },
        ARENA_LONG => Form::Arena {
            at: word_in(bytes),
            size: size_in(bytes),
            long: true,
        },
        OUTSIDE => Form::Outside {
            key: word_in(bytes),
            size: size_in(bytes),
        },
        flags => Form::Inline {
            size: flags - INLINE,
        },
    }
}

/// Two words, the highest byte of the second for flags.
fn two_words(first: u64, size: u64, flags: u8) -> [u8; 16]
    ensures { result ≡ word first ++ (size_bytes size ++ flags ∷ []) }
{
    let f = first.to_le_bytes();
    let s = size.to_le_bytes();
    [
        f[0], f[1], f[2], f[3], f[4], f[5], f[6], f[7], s[0], s[1], s[2], s[3], s[4], s[5], s[6],
        flags,
    ]
}

/// The word in the first eight bytes.
fn word_in(bytes: &[u8; 16]) -> u64
    ensures { result ≡ first_word bytes.now }
{
    let b = bytes;
    u64::from_le_bytes([b[0], b[1], b[2], b[3], b[4], b[5], b[6], b[7]])
}

/// The size in the seven bytes behind the first word.
fn size_in(bytes: &[u8; 16]) -> u64
    ensures { result ≡ size_in bytes.now }
{
    let b = bytes;
    u64::from_le_bytes([b[8], b[9], b[10], b[11], b[12], b[13], b[14], 0])
}

/// The slot that the bytes read as, where there is one. It may have another spelling.
fn likely(bytes: &[u8; 16]) -> Option<Entry>
    ensures reads { IfSome result (λ slot. slot ≡ slot_of bytes.now) }
    ensures none { IfNone result (IsSlot (slot_of bytes.now) → ⊥) }
{
    let size = size_in(bytes);
    match bytes[15] {
        FRESH => Some(Entry::fresh()),
        MISSING => Some(Entry::missing()),
        ARENA_SHORT if is_outer(size) && size < 256 => Some(Entry::in_arena(
            word_in(bytes),
            size,
            false,
        )),
        ARENA_LONG if is_outer(size) => Some(Entry::in_arena(word_in(bytes), size, true)),
        OUTSIDE if is_outer(size) => Some(Entry::outside(word_in(bytes), size)),
        flags @ INLINE..=INLINE_LONGEST => Some(Entry::inline(&bytes[..(flags - INLINE) as usize])),
        _ => None,
    }
}

/// Whether a text of this size stands outside its slot.
fn is_outer(size: u64) -> bool
    ensures { IsTrue result ↔ IsOuterSize size }
{
    (16..=65_536).contains(&size)
}
