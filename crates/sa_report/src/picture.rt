ghost use Rattle.std.specs.Prelude.{◌≡◌, ◌++◌, OnOk};
ghost use Rattle.sa_report.specs.Reports.{arena_bytes, picture_bytes};

use crate::writing::push_bytes;
use sa_base::Memory;
use sa_call::Picture;
use sa_plain::push_hex;

/// Writes a picture: the slots of its entries and the bytes of its arena, in hexadecimal.
pub fn push_picture(out: &mut Vec<u8>, picture: &Picture) -> Result<(), Memory>
    ensures { OnOk result (out.new.items ≡ out.old.items ++ picture_bytes picture.now) }
{
    push_bytes(out, b"picture")?;
    for entry in picture.entries.as_slice() {
        push_bytes(out, b" ")?;
        push_hex(out, entry.as_slice())?;
    }
    push_bytes(out, b" arena ")?;
    push_arena(out, picture.arena.as_slice())
}

/// Writes the bytes of an arena, or a dash where it has none.
fn push_arena(out: &mut Vec<u8>, arena: &[u8]) -> Result<(), Memory>
    ensures { OnOk result (out.new.items ≡ out.old.items ++ arena_bytes arena.now) }
{
    if arena.is_empty() {
        return push_bytes(out, b"-");
    }
    push_hex(out, arena)
}
