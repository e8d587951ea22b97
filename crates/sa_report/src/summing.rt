ghost use Rattle.std.specs.Prelude.{◌≡◌, ◌++◌, length, map, OnOk, IfOk, if◌then◌else◌};
ghost use Rattle.std.specs.List.{count_by};
ghost use Rattle.sa_loop.specs.Held.{IsPlay};
ghost use Rattle.sa_loop.specs.Histories.{IsHistory, bodies_of};
ghost use Rattle.sa_report.specs.Summaries.{counts_line, figure_line, is_done, is_refused, summary_of_play};

use crate::contents::push_all_stats;
use crate::making::report;
use crate::writing::push_bytes;
use sa_base::Memory;
use sa_call::Reply;
use sa_lines::push_decimal;
use sa_loop::Gathered;
use sa_script::Script;
use std::alloc::Global;

/// The summary of a run of a script that was made from this number and has so many bytes: how many calls
/// were done and how many were refused, how many bytes the report has, and the statistics of the
/// descriptors' allocators. `Memory` where there is no memory for it or for the report.
pub fn summary<H: Gathered>(
    alloc: Global,
    number: u32,
    size: u64,
    script: &Script,
    from: &H,
) -> Result<Vec<u8>, Memory>
    requires decls { H.declared from.now ≡ script.now.decls }
    requires history { IsHistory (map length script.now.tasks) (H.pairs from.now) (H.marks from.now) }
    requires bodies { H.bodies from.now ≡ bodies_of script.now.tasks (H.pairs from.now) }
    ensures { IfOk result (λ bytes. bytes.items ≡ summary_of_play number size script.now (H.pairs from.now) (H.marks from.now)) }
{
    let length = report(alloc, script, from)?.as_slice().len();
    let _sound = script.tasks();
    let mut out = Vec::new(alloc);
    push_figure(&mut out, b"sample ", u64::from(number))?;
    push_figure(&mut out, b"script ", size)?;
    push_counts(&mut out, from)?;
    push_figure(&mut out, b"report ", length as u64)?;
    push_all_stats(&mut out, script, from)?;
    Ok(out)
}

/// Writes the line of a word and a number.
fn push_figure(out: &mut Vec<u8>, word: &[u8], number: u64) -> Result<(), Memory>
    ensures { OnOk result (out.new.items ≡ out.old.items ++ figure_line word.now number) }
{
    push_bytes(out, word)?;
    push_decimal(out, number)?;
    push_bytes(out, b"\n")
}

/// Writes how many calls were done and how many were refused.
fn push_counts<H: Gathered>(out: &mut Vec<u8>, from: &H) -> Result<(), Memory>
    ensures written { OnOk result (out.new.items ≡ out.old.items ++ counts_line (H.replies from.now)) }
    ensures played { IsPlay (H.declared from.now) (H.holds from.now) (H.bodies from.now) (H.replies from.now) }
{
    let (done, refused) = counts(from);
    push_bytes(out, b"done ")?;
    push_decimal(out, done)?;
    push_bytes(out, b" refused ")?;
    push_decimal(out, refused)?;
    push_bytes(out, b"\n")
}

/// How many calls were done, and how many were refused.
fn counts<H: Gathered>(from: &H) -> (u64, u64)
    ensures done { result.0 ≡ count_by is_done (H.replies from.now) }
    ensures refused { result.1 ≡ count_by is_refused (H.replies from.now) }
    ensures played { IsPlay (H.declared from.now) (H.holds from.now) (H.bodies from.now) (H.replies from.now) }
{
    let mut done = 0u64;
    let mut refused = 0u64;
    for k in 0..from.count() {
        let Some(act) = from.act(k) else {
            unreachable!()
        };
        let reply = &act.outcome().reply;
        done += done_in(reply);
        refused += refused_in(reply);
    }
    (done, refused)
}

/// One where the call was done and had nothing to show, else none.
fn done_in(reply: &Reply) -> u64
    ensures { result ≡ (if is_done reply.now then 1 else 0) }
{
    match reply {
        Reply::Done => 1,
        Reply::Shown(_) | Reply::Sized(_) | Reply::Pictured(_) | Reply::Refused { .. } => 0,
    }
}

/// One where the call was refused, else none.
fn refused_in(reply: &Reply) -> u64
    ensures { result ≡ (if is_refused reply.now then 1 else 0) }
{
    match reply {
        Reply::Refused { .. } => 1,
        Reply::Done | Reply::Shown(_) | Reply::Sized(_) | Reply::Pictured(_) => 0,
    }
}
