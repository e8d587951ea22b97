//! The top calls.
ghost use Rattle.std.specs.Prelude.{◌≡◌, ◌≢◌, ◌↔◌, ◌≤◌, false, IfOk, MatchResult, None, true, map, string_bytes};
ghost use Rattle.strarr.specs.Outputs.{AnswersFault, GivenBy, IsReport, MayAnswer, MayGive, answer_of, command_of, is_still, output_of, reads_script, summary_for};
ghost use Rattle.sa_base.specs.Streams.{Stream};
ghost use Rattle.strarr.specs.Endings.{Ends, Completes, Responds};
ghost use Rattle.strarr.specs.declared.status.Status.TheVariants as status;

use crate::status::Status;
use crate::streams::{read_all, write_all};
use crate::words::{Command, read_words, workers_in};
use sa_base::{Gate, Memory, Sink, Source};
use sa_report::{fault_line, report, summary};
use sa_sample::{sample, samples_are_scripts};
use sa_script::{Script, ScriptFault, parse};
use sa_work::{run_serial, run_tasks};
use std::alloc::Global;
use std::sync::Wait;
use std::thread::Threads;

/// Runs the program: reads the words, the input and its script, performs it, and writes the output. With
/// `run N` it performs the script's tasks on N workers, each in a thread of its own, and a call is let pass
/// by the gate once it holds its locks; all other words are those of `run_still`.
///
/// With `Done` and `run N` it has written the report of one history with marks of the script, which is that
/// of the list machine. With `Script` the fault was written; with `WriteFault` a front of the output was; with
/// every other status nothing was. It may wait, and nothing is promised where it does not return.
pub fn run<R: Threads + Wait + Sync, S: Source, K: Sink, G: Gate + Sync>(
    rt: &R,
    alloc: Global,
    words: &[String],
    source: &mut S,
    sink: &mut K,
    gate: &G,
) -> Status
    // What was read and written, by the status.
    ensures ends { Ends (reads_script (command_of (map string_bytes words.now))) (MayGive (command_of (map string_bytes words.now)))
        (S.stream source.old) (S.stream source.new)
        (K.stream sink.old) (K.stream sink.new) result }
    // Without a fault the status is one that the definition allows, or there was no memory.
    ensures complete { Completes (reads_script (command_of (map string_bytes words.now))) (MayGive (command_of (map string_bytes words.now)))
        (S.stream source.old) (S.stream source.new)
        (K.stream sink.old) (K.stream sink.new) result }
    // With every status but that of a failed read none has failed, and so for writes.
    ensures no_read_failed { result ≢ status.ReadFault → (S.stream source.new).faults ≡ (S.stream source.old).faults }
    ensures no_write_failed { result ≢ status.WriteFault → (K.stream sink.new).faults ≡ (K.stream sink.old).faults }
    // The words are no command exactly where the status says so, and then nothing is touched.
    ensures words { (result ≡ status.Words) ↔ (command_of (map string_bytes words.now) ≡ None) }
    ensures untouched { result ≡ status.Words → (source.new ≡ source.old) × (sink.new ≡ sink.old) }
{
    let Some(workers) = workers_in(words) else {
        return run_still(alloc, words, source, sink);
    };
    match perform_in_threads(rt, alloc, workers, source, sink, gate) {
        Ok(status) | Err(status) => status,
    }
}

/// Runs the program as `run` does, on one thread: it waits for nobody and always returns. The words `run N`
/// are no command of it. With `sample N` nothing is read.
///
/// With `Done` and `Script` the whole input was read and the definition's bytes were written; with
/// `WriteFault` a front of them was; with every other status nothing was. Reading ends at the first
/// read that fails, and writing at the first write that does.
pub fn run_still<S: Source, K: Sink>(
    alloc: Global,
    words: &[String],
    source: &mut S,
    sink: &mut K,
) -> Status
    // What was read and written, by the status.
    ensures ends { Ends (reads_script (command_of (map string_bytes words.now))) (GivenBy (output_of (map string_bytes words.now)))
        (S.stream source.old) (S.stream source.new)
        (K.stream sink.old) (K.stream sink.new) result }
    // Without a fault the status is the definition's, or there was no memory.
    ensures complete { Completes (reads_script (command_of (map string_bytes words.now))) (GivenBy (output_of (map string_bytes words.now)))
        (S.stream source.old) (S.stream source.new)
        (K.stream sink.old) (K.stream sink.new) result }
    // With every status but that of a failed read none has failed, and so for writes.
    ensures no_read_failed { result ≢ status.ReadFault → (S.stream source.new).faults ≡ (S.stream source.old).faults }
    ensures no_write_failed { result ≢ status.WriteFault → (K.stream sink.new).faults ≡ (K.stream sink.old).faults }
    // The words are no command of this call exactly where the status says so, and then nothing is touched.
    ensures words { (result ≡ status.Words) ↔ (is_still (command_of (map string_bytes words.now)) ≡ false) }
    ensures untouched { result ≡ status.Words → (source.new ≡ source.old) × (sink.new ≡ sink.old) }
{
    match read_words(words) {
        Some(Command::Serial) => match perform(alloc, source, sink) {
            Ok(status) | Err(status) => status,
        },
        Some(Command::Sample(number)) => match perform_sample(alloc, number, sink) {
            Ok(status) | Err(status) => status,
        },
        _ => Status::Words,
    }
}

/// Reads the whole input, performs it on one thread, and writes its answer. The error is the status of what
/// ended it before.
fn perform<S: Source, K: Sink>(
    alloc: Global,
    source: &mut S,
    sink: &mut K,
) -> Result<Status, Status>
    ensures ends { MatchResult result
        (Ends true (GivenBy answer_of) (S.stream source.old) (S.stream source.new) (K.stream sink.old) (K.stream sink.new))
        (Ends true (GivenBy answer_of) (S.stream source.old) (S.stream source.new) (K.stream sink.old) (K.stream sink.new)) }
    ensures command { MatchResult result (λ stat. stat ≢ status.Words) (λ stat. stat ≢ status.Words) }
{
    let text = read_all(alloc, source)?;
    let (status, bytes) = answer(alloc, text.as_slice())?;
    respond(sink, status, bytes.as_slice())
}

/// Performs the sample of a number on one thread, and writes its summary. The error is the status of what
/// ended it before.
fn perform_sample<K: Sink>(alloc: Global, number: u32, sink: &mut K) -> Result<Status, Status>
    ensures ends { (source : Stream) → MatchResult result
        (Ends false (GivenBy (λ input. (status.Done, summary_for number))) source source (K.stream sink.old) (K.stream sink.new))
        (Ends false (GivenBy (λ input. (status.Done, summary_for number))) source source (K.stream sink.old) (K.stream sink.new)) }
    ensures command { MatchResult result (λ stat. stat ≢ status.Words) (λ stat. stat ≢ status.Words) }
{
    let bytes = summary_of_sample(alloc, number)?;
    respond(sink, Status::Done, bytes.as_slice())
}

/// Reads the whole input, performs it in threads, and writes its answer. The error is the status of what
/// ended it before.
fn perform_in_threads<R: Threads + Wait + Sync, S: Source, K: Sink, G: Gate + Sync>(
    rt: &R,
    alloc: Global,
    workers: u32,
    source: &mut S,
    sink: &mut K,
    gate: &G,
) -> Result<Status, Status>
    requires { 1 ≤ workers }
    ensures ends { MatchResult result
        (Ends true MayAnswer (S.stream source.old) (S.stream source.new) (K.stream sink.old) (K.stream sink.new))
        (Ends true MayAnswer (S.stream source.old) (S.stream source.new) (K.stream sink.old) (K.stream sink.new)) }
    ensures command { MatchResult result (λ stat. stat ≢ status.Words) (λ stat. stat ≢ status.Words) }
{
    let input = read_all(alloc, source)?;
    let (status, bytes) = answer_in_threads(rt, alloc, input.as_slice(), workers, gate)?;
    respond(sink, status, bytes.as_slice())
}

/// Writes an answer, and gives its status.
fn respond<K: Sink>(sink: &mut K, status: Status, bytes: &[u8]) -> Result<Status, Status>
    ensures { Responds (status, bytes.now) (K.stream sink.old) (K.stream sink.new) result }
{
    write_all(sink, bytes)?;
    Ok(status)
}

/// The status and the bytes that answer an input on one thread.
fn answer(alloc: Global, text: &[u8]) -> Result<(Status, Vec<u8>), Memory>
    ensures { IfOk result (λ a. GivenBy answer_of text.now a.0 a.1.items) }
{
    match parse(alloc, text) {
        Ok(script) => {
            let run = run_serial(alloc, &script)?;
            Ok((Status::Done, report(alloc, &script, &run)?))
        }
        Err(fault) => answer_to_fault(alloc, fault),
    }
}

/// The summary of the sample of a number.
fn summary_of_sample(alloc: Global, number: u32) -> Result<Vec<u8>, Memory>
    ensures { IfOk result (λ bytes. bytes.items ≡ summary_for number) }
{
    let text = sample(alloc, number)?;
    samples_are_scripts();
    let script = match parse(alloc, text.as_slice()) {
        Ok(script) => script,
        Err(ScriptFault::Memory) => return Err(Memory),
        Err(ScriptFault::Fault { .. }) => unreachable!(),
    };
    let run = run_serial(alloc, &script)?;
    summary(alloc, number, text.len() as u64, &script, &run)
}

/// The status and the bytes that answer an input in threads.
fn answer_in_threads<R: Threads + Wait + Sync, G: Gate + Sync>(
    rt: &R,
    alloc: Global,
    text: &[u8],
    workers: u32,
    gate: &G,
) -> Result<(Status, Vec<u8>), Memory>
    requires { 1 ≤ workers }
    ensures { IfOk result (λ a. MayAnswer text.now a.0 a.1.items) }
{
    match parse(alloc, text) {
        Ok(script) => {
            let bytes = report_in_threads(rt, alloc, &script, workers, gate)?;
            Ok((Status::Done, bytes))
        }
        Err(fault) => answer_to_fault(alloc, fault),
    }
}

/// Performs a script's tasks in threads, and gives the report.
fn report_in_threads<R: Threads + Wait + Sync, G: Gate + Sync>(
    rt: &R,
    alloc: Global,
    script: &Script,
    workers: u32,
    gate: &G,
) -> Result<Vec<u8>, Memory>
    requires { 1 ≤ workers }
    ensures { IfOk result (λ bytes. IsReport script.now bytes.items) }
{
    let _sound = script.tasks();
    let run = run_tasks(rt, alloc, script, workers, gate)?;
    let bytes = report(alloc, script, &run);
    run.let_go();
    bytes
}

/// The status and the bytes that answer what is no script.
fn answer_to_fault(alloc: Global, fault: ScriptFault) -> Result<(Status, Vec<u8>), Memory>
    ensures { IfOk result (λ a. AnswersFault fault a.0 a.1.items) }
{
    match fault {
        ScriptFault::Fault { code, line } => {
            Ok((Status::Script, fault_line(alloc, code, line)?))
        }
        ScriptFault::Memory => Err(Memory),
    }
}
