mod limits;
mod making;
mod meaning;
mod plain;
mod telling;
mod views;

use crate::view::cut_at;
use crate::{ScriptFault, parse};
use sa_base::Memory;
use sa_call::{CallList, Operand};
use sa_lines::{number_of, push_decimal};
use sa_plain::push_items;
use sa_view::View;
use std::alloc::Global;
use std::process::Abort;

/// Writes the byte that another stands for: `|` stands for a line feed, `^` for a carriage return, `!` for a
/// byte that is no UTF-8, and `@` for this number.
fn push_byte(out: &mut Vec<u8>, byte: u8, number: u64) -> Result<(), Memory> {
    let meant = match byte {
        b'@' => return push_decimal(out, number),
        b'|' => b'\n',
        b'^' => b'\r',
        b'!' => 0xff,
        other => other,
    };
    Ok(out.push(meant)?)
}

/// Writes the bytes that others stand for, with this number for each `@`.
fn push_plain(out: &mut Vec<u8>, text: &[u8], number: u64) -> Result<(), Memory> {
    for byte in text {
        push_byte(out, *byte, number)?;
    }
    Ok(())
}

/// The number that digits are, and 0 where they are none.
fn count_of(digits: &[u8]) -> u64 {
    match number_of(digits) {
        Some(Some(count)) => count.unsigned_abs(),
        _ => 0,
    }
}

/// Writes a text as often as the number in front of its `*` says, with 0, 1 and so on for each `@`.
fn push_many(out: &mut Vec<u8>, piece: &[u8]) -> Result<(), Memory> {
    let (count, piece) = cut_at(b'*', piece);
    let piece = piece.unwrap_or(b"");
    for number in 0..count_of(count) {
        push_plain(out, piece, number)?;
    }
    Ok(())
}

/// Writes what a text is up to its first piece, and this piece, and answers what follows.
fn push_piece<'a>(out: &mut Vec<u8>, text: &'a [u8]) -> Result<&'a [u8], Memory> {
    let (plain, behind) = cut_at(b'<', text);
    push_plain(out, plain, 0)?;
    let (piece, others) = cut_at(b'>', behind.unwrap_or(b""));
    push_many(out, piece)?;
    Ok(others.unwrap_or(b""))
}

/// Writes a text in which pieces such as `<3*na,>` stand for what `push_many` makes of them.
fn push_text(out: &mut Vec<u8>, text: &str) -> Result<(), Memory> {
    let mut rest = text.as_bytes();
    for _ in 0..text.len() {
        rest = push_piece(out, rest)?;
    }
    Ok(())
}

/// Writes a text between the two that stand before and behind a `~`.
fn push_around(out: &mut Vec<u8>, around: &str, text: &str) -> Result<(), Memory> {
    let (before, behind) = around.split_once('~').unwrap_or((around, ""));
    push_text(out, before)?;
    push_text(out, text)?;
    push_text(out, behind)
}

/// The last call's first operand; of a script without one nothing.
fn last_operand(tasks: &[CallList]) -> Option<&Operand> {
    tasks.last()?.as_slice().last()?.operands.get(0)
}

/// Writes a number and the mark in front of it.
fn push_number(out: &mut Vec<u8>, mark: &[u8], number: u64) -> Result<(), Memory> {
    out.extend_from_slice(mark)?;
    push_decimal(out, number)
}

/// Writes the start, count and step of a view.
fn push_view(out: &mut Vec<u8>, view: &View) -> Result<(), Memory> {
    push_number(out, b"", u64::from(view.start))?;
    push_number(out, b",", u64::from(view.count))?;
    let mark: &[u8] = if view.step < 0 { b",-" } else { b"," };
    push_number(out, mark, u64::from(view.step.unsigned_abs()))
}

/// Writes what a script is: the view that its last call reads, or else `ok`, or the literal that it reads
/// where the answer that is wanted is one.
fn push_told(out: &mut Vec<u8>, tasks: &[CallList], want: &str) -> Result<(), Memory> {
    match last_operand(tasks) {
        Some(Operand::View(view)) => push_view(out, view),
        Some(Operand::Literal(items)) if want.starts_with('(') => push_items(out, items),
        _ => Ok(out.extend_from_slice(b"ok")?),
    }
}

/// Writes the number of a fault and its line.
fn push_fault(out: &mut Vec<u8>, fault: ScriptFault) -> Result<(), Memory> {
    match fault {
        ScriptFault::Fault { code, line } => {
            push_number(out, b"", u64::from(code))?;
            push_number(out, b":", line)
        }
        ScriptFault::Memory => Err(Memory),
    }
}

/// Puts what bytes are in place of them: what their script is, or the number of their fault and its line.
fn put_answer(alloc: Global, bytes: &mut Vec<u8>, want: &str) -> Result<(), Memory> {
    let parsed = parse(alloc, bytes.as_slice());
    bytes.clear();
    match parsed {
        Ok(script) => push_told(bytes, script.tasks().as_slice(), want),
        Err(fault) => push_fault(bytes, fault),
    }
}

/// Tries a row of a table: what bytes are, a space, and the text of these bytes between those around it.
fn try_row(
    rt: &impl Abort,
    alloc: Global,
    bytes: &mut Vec<u8>,
    around: &str,
    row: &str,
) -> Result<(), Memory> {
    let (want, text) = row.split_once(' ').unwrap_or(("", row));
    bytes.clear();
    push_around(bytes, around, text)?;
    put_answer(alloc, bytes, want)?;
    let found = std::str::from_utf8(bytes.as_slice()).unwrap_or("");
    assert_eq!(rt; found, want, "of {row}");
    Ok(())
}

/// Tries each row of a table, and uses the bytes for the scripts.
fn try_each(rt: &impl Abort, alloc: Global, bytes: &mut Vec<u8>, rows: &str) -> Result<(), Memory> {
    let mut around = "";
    let mut rest = rows;
    for _ in 0..rows.len() {
        let Some((row, others)) = rest.split_once('\n') else {
            break;
        };
        rest = others;
        match row.strip_prefix('~') {
            Some(texts) => around = texts,
            None => try_row(rt, alloc, bytes, around, row)?,
        }
    }
    Ok(())
}

/// Tries each row of a table. A line that begins with `~` is no row: it has the texts around those of the rows
/// that follow, with another `~` between them.
fn try_rows(rt: &impl Abort, alloc: Global, rows: &str) -> Result<(), Memory> {
    let mut bytes = Vec::new(alloc);
    try_each(rt, alloc, &mut bytes, rows)
}

/// Whole scripts; then lines behind a descriptor `d` and an array `a`; then lines of a task, behind a
/// descriptor `d` and arrays of 2, 0 and 1 entries.
static ROWS: &str = "~~
11:0 
11:1 |
11:1 descr d absent coerce|
11:1 descr d absent coerce
11:3 ^|# only| \t
11:3 task||# x|
2:2 task|foo
ok end|
ok end
ok ^||\tend \t^|
ok #^|end|
ok end|| \t |# done|\t # more
2:1 end^
2:2 end|^
2:1 end^^|
2:1 task^end|
2:2 end|foo|
2:1 end # done|
3:3 end||end|
3:2 end|task
3:2 end|descr d nan|
3:2 end|array a d str -1|
3:2 end|set x na|
3:2 end|show x|
2:6 ||# c|end|# x|foo|
2:1 foo|show x|
3:1 show x|foo|
1:1 !
1:1 # !|end|
1:2 # fine|foo !
2:1 foo|!|
2:1 \u{feff}end|
2:1 \u{a0}end|
2:1 \u{c}end|
ok # two|| \t|version 2|end|
2:1 version 1|end|
2:1 version 02|end|
2:1 version|end|
2:1 version 2 2|end|
2:2 descr d nan|version 2|end|
2:2 version 2|version 2|end|
2:2 end|version 2|
~descr d nan|array a d str 2|~|end|
ok descr f absent
ok descr f nan coerce
ok \tdescr  f\tother \t strict 
ok descr text text \"absent\"
ok descr set text \"\\u{e9} \\\"\\\\\" strict
ok descr z9_z nan
2:3 descr
2:3 descr f
2:3 descr f maybe
2:3 descr f nan maybe
2:3 descr f nan strict strict
2:3 descr f text
2:3 descr f text coerce
2:3 descr f text na
2:3 descr f text (\"x\")
2:3 descr f text \"x\"strict
2:3 descr na nan
2:3 descr true nan
2:3 descr false nan
2:3 descr into nan
2:3 descr 1f nan
2:3 descr _f nan
2:3 descr fF nan
2:3 descr é nan
2:3 Descr f nan
4:3 descr d nan
4:3 descr a absent strict
ok array b d str 0
ok array b d str -0
ok array b d str 007
ok array b d str 8190
ok array add d str 1
2:3 array b d str
2:3 array b d 1
2:3 array b d str 1 1
ok array b d int 1
2:3 array b d str +1
2:3 array b d str 1x
2:3 array b d str -
2:3 array b d str \"1\"
2:3 array b na str 1
2:3 array b[0,1,1] d str 1
4:3 array a d str 1
4:3 array d d str 1
4:3 array b a str 1
4:3 array b x str -1
4:3 array a d str 9223372036854775808
5:3 array b d str -1
5:3 array b d str 8191
5:3 array b d str 9223372036854775807
5:3 array b d str 9223372036854775808
5:3 array b d str -9223372036854775808
5:3 array b d str -9223372036854775809
3:3 show a
3:3 show x
3:3 set x na
3:3 set a (\"x\",\"y\",\"z\")
3:3 stats x
2:3 show a a
~descr d nan|array a d str 2|array none d str 0|array one d str 1|task|~|end|
ok task
0,2,1 show a
0,0,1 \tshow \t none\t
ok set a na
ok set a (na)
ok set a (\"x y\",\"#,)\")
ok set a (na,\"\\u{7f}\\u{10ffff}\")
ok set none \"x\"
ok set one (\"x\")
0,2,1 copy a into a
0,1,1 copy one into a
ok stats d
ok image d
2:6 task 1
2:6 cast a into a
2:6 show
2:6 show na
2:6 show \"a\"
2:6 show a a
2:6 show a into a
2:6 show a # why
2:6 set a
2:6 set a a
2:6 set a na na
2:6 set na na
7:6 set a 5
7:6 set a true
7:6 set a hex:00
2:6 set a (na,5)
2:6 set a ()
2:6 set a (na,)
2:6 set a (,na)
2:6 set a (na;na)
2:6 set a (na, na)
2:6 set a (na
2:6 set a na)
2:6 set a (na)x
2:6 set a ((na))
2:6 set a nan
2:6 set a n
2:6 set a \"x
2:6 set a \"x\\\"
2:6 set a \"x\"y
2:6 set a \"x\ty\"
2:6 set a \"\u{1f}\"
2:6 set a \"\\n\"
2:6 set a \"\\u{}\"
2:6 set a \"\\u{A}\"
2:6 set a \"\\u{0000041}\"
2:6 set a \"\\u{d800}\"
2:6 set a \"\\u{110000}\"
2:6 set\u{c}a na
2:6 copy a
2:6 copy a into
2:6 copy a b
2:6 copy a into a a
2:6 copy a onto a
2:6 copy na into a
2:6 copy \"x\" into a
2:6 stats
2:6 stats d d
2:6 stats d into a
2:6 stats d[0,1,1]
2:6 image \"d\"
3:6 descr f nan
3:6 descr d nan
3:6 array f d str 1
3:6 array f x str 9000
4:6 show x
4:6 show d
4:6 set d na
4:6 set x (na,na,na)
4:6 copy x into a
4:6 copy a into d
4:6 stats a
4:6 image x
8:6 set a (na,na,na)
8:6 set one (na,na)
8:6 set none (na,na)
8:6 copy a into one
8:6 copy none into a
";

#[test]
fn lines_declarations_and_calls(rt: HostRuntime) -> Result<(), Memory> {
    try_rows(&rt, rt.alloc(), ROWS)
}
