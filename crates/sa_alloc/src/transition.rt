ghost use Rattle.std.specs.Prelude.{◌≡◌, ◌+◌, ◌≤◌, length};
ghost use Rattle.sa_entry.specs.Slots.{form_of, IsOuterSize};
ghost use Rattle.sa_arena.specs.Extents.{cursor_of};
ghost use Rattle.sa_alloc.specs.Layouts.{incoming};
ghost use Rattle.sa_alloc.specs.Needs.{bytes_appended, keys_taken, outer_bytes, outer_keys};
ghost use Rattle.sa_alloc.specs.Transitions.{Spelled, IsPresent, ReleasesText, TakesText, StepsStore, state_by, storage};

use sa_arena::Arena;
use sa_bytes::SharedBytes;
use sa_entry::{Entry, Form};
use sa_outside::Outside;
use sa_text::Value;

/// The most bytes of a text that stands inside its slot.
const MOST_INLINE: usize = 15;

/// The greatest capacity that one byte holds.
const MOST_SHORT: u64 = 255;

/// Puts a value in the place of what a slot says, and makes the slot say it. It takes no memory, since
/// a plan took it.
#[inline]
pub fn step(arena: &mut Arena, outside: &mut Outside, slot: &mut Entry, value: Value)
    requires present { IsPresent (storage arena.old.extents outside.old.texts) (form_of slot.old) }
    requires bytes { cursor_of arena.old.extents + bytes_appended (state_by arena.old.extents (form_of slot.old)) (incoming value) ≤ arena.old.size }
    requires keys { keys_taken arena.old.extents (state_by arena.old.extents (form_of slot.old)) (incoming value) ≤ outside.old.spare }
    ensures steps { StepsStore (storage arena.old.extents outside.old.texts) (form_of slot.old) (incoming value) (storage arena.new.extents outside.new.texts) slot.new }
    ensures spelled { Spelled value }
    ensures size { arena.new.size ≡ arena.old.size }
    ensures spare { outside.old.spare ≤ outside.new.spare + keys_taken arena.old.extents (state_by arena.old.extents (form_of slot.old)) (incoming value) }
{
    let old = slot.form();
    match value {
        Value::Missing => {
            release(arena, outside, old);
            *slot = Entry::missing();
        }
        Value::Of(text) => {
            let bytes = text.into_bytes();
            if bytes.len() <= MOST_INLINE {
                release(arena, outside, old);
                slot.set_inline(bytes.as_slice());
            } else {
                *slot = take_in(arena, outside, old, bytes);
            }
        }
    }
}

/// Gives up what an entry of this form holds: its extent dies, or its key is freed.
#[inline]
fn release(arena: &mut Arena, outside: &mut Outside, old: Form)
    requires { IsPresent (storage arena.old.extents outside.old.texts) old }
    ensures releases { ReleasesText (storage arena.old.extents outside.old.texts) old (storage arena.new.extents outside.new.texts) }
    ensures size { arena.new.size ≡ arena.old.size }
    ensures spare { outside.old.spare ≤ outside.new.spare }
{
    match old {
        Form::Arena { at, .. } => arena.kill(at),
        Form::Outside { key, .. } => {
            outside.free(key);
        }
        Form::Fresh => (),
        Form::Inline { .. } => (),
        Form::Missing => (),
    }
}

/// Takes in a text that does not fit into a slot: into a new extent for a fresh entry, into the
/// entry's own extent where it fits there, else outside.
fn take_in(arena: &mut Arena, outside: &mut Outside, old: Form, bytes: SharedBytes) -> Entry
    requires present { IsPresent (storage arena.old.extents outside.old.texts) old }
    requires size { IsOuterSize (length bytes) }
    requires bytes { cursor_of arena.old.extents + outer_bytes (state_by arena.old.extents old) (length bytes) ≤ arena.old.size }
    requires keys { outer_keys arena.old.extents (state_by arena.old.extents old) (length bytes) ≤ outside.old.spare }
    ensures takes { TakesText (storage arena.old.extents outside.old.texts) old bytes (storage arena.new.extents outside.new.texts) result }
    ensures size { arena.new.size ≡ arena.old.size }
    ensures spare { outside.old.spare ≤ outside.new.spare + outer_keys arena.old.extents (state_by arena.old.extents old) (length bytes) }
{
    let size = bytes.len() as u64;
    match old {
        Form::Fresh => Entry::in_arena(arena.append(bytes.as_slice()), size, size > MOST_SHORT),
        Form::Inline { .. } => Entry::outside(outside.put(bytes), size),
        Form::Missing => Entry::outside(outside.put(bytes), size),
        Form::Arena { at, long, .. } => {
            if size <= arena.capacity_at(at) {
                arena.reuse(at, bytes.as_slice());
                Entry::in_arena(at, size, long)
            } else {
                arena.kill(at);
                Entry::outside(outside.put(bytes), size)
            }
        }
        Form::Outside { key, .. } => {
            outside.swap(key, bytes);
            Entry::outside(key, size)
        }
    }
}
