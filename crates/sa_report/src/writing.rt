ghost use Rattle.std.specs.Prelude.{◌≡◌, ◌++◌, OnOk};
ghost use Rattle.sa_report.specs.Reports.{reply_bytes, sized_bytes, spaced_pair, call_line, memory_line};

use crate::picture::push_picture;
use sa_base::{Memory, Stats};
use sa_call::Reply;
use sa_lines::push_decimal;
use sa_plain::push_items;

/// Writes bytes at the end.
pub fn push_bytes(out: &mut Vec<u8>, bytes: &[u8]) -> Result<(), Memory>
    ensures { OnOk result (out.new.items ≡ out.old.items ++ bytes.now) }
{
    out.extend_from_slice(bytes)?;
    Ok(())
}

/// Writes a reply.
fn push_reply(out: &mut Vec<u8>, reply: &Reply) -> Result<(), Memory>
    ensures { OnOk result (out.new.items ≡ out.old.items ++ reply_bytes reply.now) }
{
    match reply {
        Reply::Done => push_bytes(out, b"done"),
        Reply::Shown(items) => {
            push_bytes(out, b"shown ")?;
            push_items(out, items)
        }
        Reply::Sized(stats) => push_sized(out, stats),
        Reply::Pictured(picture) => push_picture(out, picture),
        Reply::Refused { code, at } => {
            push_bytes(out, b"refused ")?;
            push_decimal(out, u64::from(*code))?;
            push_bytes(out, b" ")?;
            push_decimal(out, u64::from(*at))
        }
    }
}

/// Writes the statistics of a reply: cursor, live, dead and outside.
fn push_sized(out: &mut Vec<u8>, stats: &Stats) -> Result<(), Memory>
    ensures { OnOk result (out.new.items ≡ out.old.items ++ sized_bytes stats.now) }
{
    push_bytes(out, b"sized ")?;
    push_decimal(out, stats.cursor)?;
    push_bytes(out, b" ")?;
    push_decimal(out, stats.live)?;
    push_bytes(out, b" ")?;
    push_decimal(out, stats.dead)?;
    push_bytes(out, b" ")?;
    push_decimal(out, stats.outside)
}

/// Writes the line of a call: its number and its reply.
pub fn push_call_line(out: &mut Vec<u8>, number: u32, reply: &Reply) -> Result<(), Memory>
    ensures { OnOk result (out.new.items ≡ out.old.items ++ call_line number reply.now) }
{
    push_decimal(out, u64::from(number))?;
    push_bytes(out, b" ")?;
    push_reply(out, reply)?;
    push_bytes(out, b"\n")
}

/// Writes the line of a marked call.
pub fn push_memory_line(out: &mut Vec<u8>, number: u32) -> Result<(), Memory>
    ensures { OnOk result (out.new.items ≡ out.old.items ++ memory_line number) }
{
    push_decimal(out, u64::from(number))?;
    push_bytes(out, b" memory\n")
}

/// Writes a task and a call behind a space.
pub fn push_pair(out: &mut Vec<u8>, pair: (u32, u32)) -> Result<(), Memory>
    ensures { OnOk result (out.new.items ≡ out.old.items ++ spaced_pair pair) }
{
    push_bytes(out, b" ")?;
    push_decimal(out, u64::from(pair.0))?;
    push_bytes(out, b":")?;
    push_decimal(out, u64::from(pair.1))
}
