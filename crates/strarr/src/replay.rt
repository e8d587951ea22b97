//! For tests: a report's own order, played anew on one thread.
use super::*;
use sa_base::{MemSink, MemSource, Memory};
use sa_lines::{cut_line, is_word, next_token, number_of, push_decimal};
use std::alloc::Global;

/// A script's lines before its tasks, and the lines of each task's calls.
#[derive(Drop)]
pub struct Tasks<'a> {
    pub head: &'a [u8],
    pub tasks: Vec<Vec<&'a [u8]>>,
}

/// A reply's line: its task, its number, and what follows.
#[derive(Drop)]
struct ReplyLine<'a> {
    task: usize,
    call: usize,
    text: &'a [u8],
}

/// Writes a line.
fn push_line(out: &mut Vec<u8>, line: &[u8]) -> Result<(), Memory> {
    out.extend_from_slice(line)?;
    out.push(b'\n')?;
    Ok(())
}

/// The script.
pub fn script_of(alloc: Global, tasks: &Tasks<'_>) -> Result<Vec<u8>, Memory> {
    let mut out = Vec::from_slice(alloc, tasks.head)?;
    for calls in &tasks.tasks {
        push_line(&mut out, b"task")?;
        for call in calls {
            push_line(&mut out, call)?;
        }
    }
    push_line(&mut out, b"end")?;
    Ok(out)
}

/// The script of one task which has the calls in this order.
fn script_in_order(
    alloc: Global,
    tasks: &Tasks<'_>,
    order: &[(usize, usize)],
) -> Result<Vec<u8>, Memory> {
    let mut out = Vec::from_slice(alloc, tasks.head)?;
    push_line(&mut out, b"task")?;
    for (task, call) in order {
        if let Some(calls) = tasks.tasks.get(*task) {
            if let Some(line) = calls.get(*call) {
                push_line(&mut out, line)?;
            }
        }
    }
    push_line(&mut out, b"end")?;
    Ok(out)
}

/// The number that a token spells; 0 where it spells none.
fn number(token: &[u8]) -> usize {
    match number_of(token) {
        Some(Some(number)) => usize::try_from(number).unwrap_or(0),
        _ => 0,
    }
}

/// The two numbers of a token with a colon between them.
fn pair(token: &[u8]) -> Option<(usize, usize)> {
    let at = token.iter().position(|byte| *byte == b':')?;
    let (first, second) = token.split_at(at);
    let (_, second) = second.split_first()?;
    Some((number(first), number(second)))
}

/// The calls that a report's second line names, in order.
pub fn order_of(alloc: Global, report: &[u8]) -> Result<Vec<(usize, usize)>, Memory> {
    let mut all = Vec::new(alloc);
    let mut lines = report;
    if !lines.is_empty() {
        lines = cut_line(lines).1;
    }
    if lines.is_empty() {
        return Ok(all);
    }
    let (line, _) = cut_line(lines);
    let mut rest = line;
    'tokens: for _ in 0..line.len() {
        let Some((token, others)) = next_token(rest) else {
            break;
        };
        rest = others;
        if let Some(pair) = pair(token) {
            all.push(pair)?;
        }
    }
    Ok(all)
}

/// Whether a report's third line names no marked call.
pub fn is_without_marks(report: &[u8]) -> bool {
    let mut rest = report;
    'lines: for _ in 0..2u8 {
        if !rest.is_empty() {
            rest = cut_line(rest).1;
        }
    }
    !rest.is_empty() && is_word(b"marked", cut_line(rest).0)
}

/// The lines of a report's replies.
fn replies_of(alloc: Global, report: &[u8]) -> Result<Vec<ReplyLine<'_>>, Memory> {
    let mut all = Vec::new(alloc);
    let mut task = 0;
    let mut rest = report;
    'lines: for _ in 0..report.len() {
        if rest.is_empty() {
            break;
        }
        let (line, others) = cut_line(rest);
        rest = others;
        if let Some((word, text)) = next_token(line) {
            if is_word(b"task", word) {
                if let Some((token, _)) = next_token(text) {
                    task = number(token);
                }
            } else if number_of(word).is_some() {
                let call = number(word);
                all.push(ReplyLine { task, call, text })?;
            }
        }
    }
    Ok(all)
}

/// Writes the lines of a report that tell of arrays and of stores.
fn push_ends(out: &mut Vec<u8>, report: &[u8]) -> Result<(), Memory> {
    let mut rest = report;
    'lines: for _ in 0..report.len() {
        if rest.is_empty() {
            break;
        }
        let (line, others) = cut_line(rest);
        rest = others;
        if let Some((word, _)) = next_token(line) {
            if is_word(b"array", word) || is_word(b"stats", word) {
                push_line(out, line)?;
            }
        }
    }
    Ok(())
}

/// Writes the reply to a call.
fn push_reply(
    out: &mut Vec<u8>,
    replies: &[ReplyLine<'_>],
    task: usize,
    call: usize,
) -> Result<(), Memory> {
    for reply in replies {
        if reply.task == task && reply.call == call {
            push_line(out, reply.text)?;
        }
    }
    Ok(())
}

/// What a report tells: the replies in the order of its history, the arrays and the stores.
pub fn told_by(alloc: Global, report: &[u8]) -> Result<Vec<u8>, Memory> {
    let order = order_of(alloc, report)?;
    let replies = replies_of(alloc, report)?;
    let mut out = Vec::new(alloc);
    for (task, call) in order.as_slice() {
        push_reply(&mut out, replies.as_slice(), *task, *call)?;
    }
    push_ends(&mut out, report)?;
    Ok(out)
}

/// What is told of the calls of a script when one thread performs them in a report's own order.
pub fn told_anew(alloc: Global, tasks: &Tasks<'_>, report: &[u8]) -> Result<Vec<u8>, Memory> {
    let order = order_of(alloc, report)?;
    let script = script_in_order(alloc, tasks, order.as_slice())?;
    let mut words = Vec::new(alloc);
    words.push(String::from_str(alloc, "serial")?)?;
    let mut source = MemSource::new(script, 65_536, Vec::new(alloc));
    let mut sink = MemSink::new(alloc, 4_194_304, 65_536, Vec::new(alloc))?;
    let status = run_still(alloc, words.as_slice(), &mut source, &mut sink);
    let mut told = told_by(alloc, sink.bytes())?;
    if status != Status::Done {
        push_line(&mut told, b"not done")?;
    }
    Ok(told)
}
