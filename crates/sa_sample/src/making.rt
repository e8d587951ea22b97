ghost use Rattle.std.specs.Prelude.{◌≡◌, ◌++◌, ◌<◌, OnOk, IfOk};
ghost use Rattle.std.specs.List.{flat_map};
ghost use Rattle.sa_lines.specs.Lines.{line};
ghost use Rattle.sa_lines.specs.Tokens.{joined};
ghost use Rattle.sa_sample.specs.Samples.{after_calls, call_lines, call_tokens, sample_of, view_behind, word_of};

use crate::drawing::{DrawnCall, DrawnOp, DrawnView, Draws};
use sa_base::Memory;
use sa_lines::{push_decimal, push_quoted};
use std::alloc::Global;

/// How many tasks a sample has.
const TASKS: u32 = 8;

/// How many calls each of them has.
const CALLS: u32 = 64;

/// What stands in front of the tasks.
const DECLARATIONS: &[u8] =
    b"descr d0 absent coerce\ndescr d1 nan coerce\ndescr d2 absent coerce\ndescr d3 nan coerce\n\
    array a0 d0 str 64\narray n0 d0 int 64\narray a1 d1 str 64\narray n1 d1 int 64\n\
    array a2 d2 str 64\narray n2 d2 int 64\narray a3 d3 str 64\narray n3 d3 int 64\n";

/// The script of the sample of this number. `Memory` where there is no memory for it.
pub fn sample(alloc: Global, number: u32) -> Result<Vec<u8>, Memory>
    ensures { IfOk result (λ bytes. bytes.items ≡ sample_of number) }
{
    let mut out = Vec::new(alloc);
    let mut draws = Draws { state: number };
    out.extend_from_slice(DECLARATIONS)?;
    for _ in 0..TASKS {
        out.extend_from_slice(b"task\n")?;
        push_calls(&mut out, &mut draws)?;
    }
    out.extend_from_slice(b"end\n")?;
    Ok(out)
}

/// Writes the calls of a task, as they are drawn.
fn push_calls(out: &mut Vec<u8>, draws: &mut Draws) -> Result<(), Memory>
    ensures written { OnOk result (out.new.items ≡ out.old.items ++ flat_map line (call_lines 64 draws.old.state)) }
    ensures drawn { OnOk result (draws.new.state ≡ after_calls 64 draws.old.state) }
{
    for _ in 0..CALLS {
        let call = draws.call();
        push_call(out, &call)?;
        out.push(b'\n')?;
    }
    Ok(())
}

/// Writes a call.
fn push_call(out: &mut Vec<u8>, call: &DrawnCall) -> Result<(), Memory>
    ensures { OnOk result (out.new.items ≡ out.old.items ++ joined (call_tokens call.now)) }
{
    match call.op {
        DrawnOp::SetWord(word) => {
            push_view(out, b"set a", call.target, call.count)?;
            push_text(out, b" ")?;
            push_text(out, word_of(word))
        }
        DrawnOp::AddWord(word) => {
            push_view(out, b"add a", call.source, call.count)?;
            push_text(out, b" ")?;
            push_text(out, word_of(word))?;
            push_view(out, b" into a", call.target, call.count)
        }
        DrawnOp::Copy => {
            push_view(out, b"copy a", call.source, call.count)?;
            push_view(out, b" into a", call.target, call.count)
        }
        DrawnOp::Replace => {
            push_view(out, b"replace a", call.source, call.count)?;
            push_text(out, " \"a\" \"éé\"".as_bytes())?;
            push_view(out, b" into a", call.target, call.count)
        }
        DrawnOp::Strip => {
            push_view(out, b"strip a", call.source, call.count)?;
            push_view(out, b" into a", call.target, call.count)
        }
        DrawnOp::Find => {
            push_view(out, b"find a", call.source, call.count)?;
            push_view(out, b" \"a\" into n", call.target, call.count)
        }
        DrawnOp::Multiply => {
            push_view(out, b"multiply a", call.source, call.count)?;
            push_view(out, b" 2 into a", call.target, call.count)
        }
        DrawnOp::SetMissing => {
            push_view(out, b"set a", call.target, call.count)?;
            push_text(out, b" na")
        }
    }
}

/// Writes bytes at the end.
fn push_text(out: &mut Vec<u8>, text: &[u8]) -> Result<(), Memory>
    ensures { OnOk result (out.new.items ≡ out.old.items ++ text.now) }
{
    out.extend_from_slice(text)?;
    Ok(())
}

/// Writes what stands in front of an array's number, and a view of so many of its entries.
fn push_view(out: &mut Vec<u8>, front: &[u8], view: DrawnView, count: u32) -> Result<(), Memory>
    ensures { OnOk result (out.new.items ≡ out.old.items ++ (front.now ++ view_behind view count)) }
{
    push_text(out, front)?;
    push_decimal(out, u64::from(view.array))?;
    push_text(out, b"[")?;
    push_decimal(out, u64::from(view.start))?;
    push_text(out, b",")?;
    push_decimal(out, u64::from(count))?;
    push_text(out, b",1]")
}

/// A word in quotation marks, by its number.
fn word_of(word: u32) -> &'static [u8]
    ensures { result.now ≡ word_of word }
{
    match word {
        0 => b"\"a\"",
        1 => "\"naïve\"".as_bytes(),
        2 => b"\"banana\"",
        3 => b"\" padded \"",
        4 => "\"データベース\"".as_bytes(),
        5 => b"\"a much longer text than sixteen bytes\"",
        7 => b"\"x\"",
        _ => b"\"\"",
    }
}
