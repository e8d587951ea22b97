ghost use Rattle.std.specs.Prelude.{◌≡◌, ◌≤◌, ◌<◌, All, length, map, true, IfOk};
ghost use Rattle.sa_base.specs.Items.{IntegerItem, FlagItem, BytesItem, UnitsItem};
ghost use Rattle.sa_plain.specs.Items.{items_of};
ghost use Rattle.sa_plain.specs.Plains.{width_of, holds_ints, holds_flags, holds_bytes, holds_units, put_items, FitPlain};

use crate::items::{ByteList, Items, UnitList};
use crate::plain::Plain;

impl Plain {
    /// Puts items of the array's kind at places, in order, each with zeros behind it up to the width. It
    /// takes no memory.
    pub fn put_items(&mut self, places: &[u32], items: &Items)
        requires { FitPlain self.old places.now items.now }
        ensures { self.new ≡ put_items self.old places.now (items_of items.now) }
    {
        match items {
            Items::Values(_) => unreachable!(),
            Items::Ints(numbers) => put_ints(self, places, numbers.as_slice()),
            Items::Flags(flags) => put_flags(self, places, flags.as_slice()),
            Items::Bytes(rows) => put_byte_texts(self, places, rows.as_slice()),
            Items::Units(rows) => put_unit_texts(self, places, rows.as_slice()),
        }
    }
}

/// Puts integers at places, in order.
fn put_ints(plain: &mut Plain, places: &[u32], numbers: &[i64])
    requires kind { holds_ints plain.old.kind ≡ true }
    requires many { length places.now ≡ length numbers.now }
    requires below { All (λ k. k < length plain.old.items) places.now }
    ensures { plain.new ≡ put_items plain.old places.now (map (λ n. IntegerItem n) numbers.now) }
{
    for k in 0..places.len() {
        plain.put_int(places[k], numbers[k]);
    }
}

/// Puts flags at places, in order.
fn put_flags(plain: &mut Plain, places: &[u32], flags: &[bool])
    requires kind { holds_flags plain.old.kind ≡ true }
    requires many { length places.now ≡ length flags.now }
    requires below { All (λ k. k < length plain.old.items) places.now }
    ensures { plain.new ≡ put_items plain.old places.now (map (λ b. FlagItem b) flags.now) }
{
    for k in 0..places.len() {
        plain.put_flag(places[k], flags[k]);
    }
}

/// Puts byte texts at places, in order.
fn put_byte_texts(plain: &mut Plain, places: &[u32], rows: &[ByteList])
    requires kind { holds_bytes plain.old.kind ≡ true }
    requires many { length places.now ≡ length rows.now }
    requires below { All (λ k. k < length plain.old.items) places.now }
    requires fit { All (λ row. length row ≤ width_of plain.old.kind) rows.now }
    ensures { plain.new ≡ put_items plain.old places.now (map (λ bytes. BytesItem bytes) rows.now) }
{
    for k in 0..places.len() {
        plain.put_bytes(places[k], rows[k].as_slice());
    }
}

/// Puts unicode texts at places, in order.
fn put_unit_texts(plain: &mut Plain, places: &[u32], rows: &[UnitList])
    requires kind { holds_units plain.old.kind ≡ true }
    requires many { length places.now ≡ length rows.now }
    requires below { All (λ k. k < length plain.old.items) places.now }
    requires fit { All (λ row. length row ≤ width_of plain.old.kind) rows.now }
    ensures { plain.new ≡ put_items plain.old places.now (map (λ units. UnitsItem units) rows.now) }
{
    for k in 0..places.len() {
        plain.put_units(places[k], rows[k].as_slice());
    }
}
