use crate::{Script, parse};
use sa_base::Memory;
use std::alloc::Global;
use std::fmt::Debug;

/// A script of several descriptors, arrays and tasks.
static SCRIPT: &str = "# words
version 2
descr d text \"-\\u{2d}é\"
descr e absent strict
descr f nan coerce
descr g other

array b e str 1
\tarray a d str 2 \r
array c d str 003
task
set a (\"\\u{e9}\\\"\\\\ x\",na)
task
task
set c[0,2,2] \"\"
copy a[::-1] into c[1,2,1]
center c 5 \"é\" into c
rjust c -007
strip c
find c \"\"
show c
image g
end
";

/// What it declares and calls, as `Debug` writes it. A literal's values are shared, so that copies of it
/// take no memory.
static TOLD: &str = "\n2
Names { descrs: [\"d\", \"e\", \"f\", \"g\"], arrays: [\"b\", \"a\", \"c\"] }
Decls { descrs: [Descr { na: Txt(Text { bytes: SharedBytes { held: Inside { size: 4, bytes: [45, 45, 195, 169, 0, 0, 0, 0, 0, 0, 0, 0, 0, 0] } } }), coerce: true }, \
    Descr { na: Absent, coerce: false }, \
    Descr { na: Nan, coerce: true }, \
    Descr { na: Other, coerce: true }], \
    arrays: [ArrayDecl { home: 1, kind: Str, len: 1 }, ArrayDecl { home: 0, kind: Str, len: 2 }, ArrayDecl { home: 0, kind: Str, len: 3 }] }
Sequence { items: [\
    Sequence { items: [Call { op: Set, operands: Sequence { items: [\
    Literal(Values(ValueList { held: Shared { count: 2, weight: Some(38), values: [Of(Text { bytes: SharedBytes { held: Inside { size: 6, bytes: [195, 169, 34, 92, 32, 120, 0, 0, 0, 0, 0, 0, 0, 0] } } }), Missing] } }))] }, \
    out: Some(View { array: 1, start: 0, count: 2, step: 1 }) }] }, \
    Sequence { items: [] }, \
    Sequence { items: [Call { op: Set, operands: Sequence { items: [\
    Literal(Values(ValueList { held: Shared { count: 1, weight: Some(16), values: [Of(Text { bytes: SharedBytes { held: Inside { size: 0, bytes: [0, 0, 0, 0, 0, 0, 0, 0, 0, 0, 0, 0, 0, 0] } } })] } }))] }, \
    out: Some(View { array: 2, start: 0, count: 2, step: 2 }) }, \
    Call { op: Copy, operands: Sequence { items: [View(View { array: 1, start: 1, count: 2, step: -1 })] }, \
    out: Some(View { array: 2, start: 1, count: 2, step: 1 }) }, \
    Call { op: Center('é'), operands: Sequence { items: [View(View { array: 2, start: 0, count: 3, step: 1 }), Literal(Ints(Sequence { items: [5] }))] }, \
    out: Some(View { array: 2, start: 0, count: 3, step: 1 }) }, \
    Call { op: Rjust(' '), operands: Sequence { items: [View(View { array: 2, start: 0, count: 3, step: 1 }), Literal(Ints(Sequence { items: [-7] }))] }, \
    out: None }, \
    Call { op: Strip, operands: Sequence { items: [View(View { array: 2, start: 0, count: 3, step: 1 })] }, \
    out: None }, \
    Call { op: Find, operands: Sequence { items: [View(View { array: 2, start: 0, count: 3, step: 1 }), \
    Literal(Values(ValueList { held: Shared { count: 1, weight: Some(16), values: [Of(Text { bytes: SharedBytes { held: Inside { size: 0, bytes: [0, 0, 0, 0, 0, 0, 0, 0, 0, 0, 0, 0, 0, 0] } } })] } })), \
    Literal(Ints(Sequence { items: [0] })), Literal(Ints(Sequence { items: [9223372036854775807] }))] }, \
    out: None }, \
    Call { op: Show, operands: Sequence { items: [View(View { array: 2, start: 0, count: 3, step: 1 })] }, \
    out: None }, \
    Call { op: Image(3), operands: Sequence { items: [] }, \
    out: None }] }] }";

/// Writes a line feed and what `Debug` writes of a value.
fn push_line(out: &mut String, value: &impl Debug) -> Result<(), Memory> {
    Ok(write!(out, "\n{value:?}")?)
}

/// Writes what a script declares and calls.
fn push_script(out: &mut String, script: &Script) -> Result<(), Memory> {
    push_line(out, &script.version())?;
    push_line(out, script.names())?;
    push_line(out, script.decls())?;
    push_line(out, script.tasks())
}

/// Writes what the script's bytes are.
fn push_parsed(alloc: Global, out: &mut String) -> Result<(), Memory> {
    match parse(alloc, SCRIPT.as_bytes()) {
        Ok(script) => push_script(out, &script),
        Err(fault) => push_line(out, &fault),
    }
}

#[test]
fn what_a_script_is(rt: HostRuntime) -> Result<(), Memory> {
    let mut told = String::new(rt.alloc());
    push_parsed(rt.alloc(), &mut told)?;
    assert_eq!(rt; told.as_str(), TOLD);
    Ok(())
}
