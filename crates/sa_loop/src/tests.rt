ghost use Rattle.std.specs.Prelude.{◌≡◌, ◌≤◌, ◌==◌, ◌||◌, ◌∷◌, [], length, Some, None, true, IfOk};
ghost use Rattle.std.specs.List.{AllByRecursion};
ghost use Rattle.sa_text.specs.Values.{IsTextValue};
ghost use Rattle.sa_plain.specs.Items.{values_of};
ghost use Rattle.sa_call.specs.Forms.{descr_of, entry};
ghost use Rattle.sa_call.specs.Kinds.{are_within, fits_kind, is_same_kind};
ghost use Rattle.sa_call.specs.Valid.{IsCall, is_view_of};
ghost use Rattle.sa_call.specs.declared.form.Into.TheVariants.{Never};
ghost use Rattle.sa_call.specs.declared.form.Sort.TheVariants.{Descr as DescrSort};

use super::*;
use sa_alloc::Seen;
use sa_base::Memory;
use sa_call::{
    ArrayDecl, Call, Decls, IntList, Items, Kind, Op, Operand, OperandList, Operands, PlainKind,
    Reply, ValueList, View, kind_of,
};
use sa_descr::{Descr, NaRule};
use sa_plain::{UnitList, UnitLists, push_items};
use sa_text::{Text, Value};
use std::alloc::Global;
use std::process::Abort;
use std::test::Fail;

const TEXT_16: &str = "abcdefghijklmnop";

/// Two descriptors, of which the first has no missing values. Arrays 0 and 2 are strings arrays of the first,
/// and array 1 of the second; array 3 is one of numbers of the first, array 4 one of texts of three units of
/// the second.
fn declared(alloc: Global) -> Result<Decls, Memory> {
    let descr = |na| Descr { na, coerce: false };
    let array = |home, kind| ArrayDecl {
        home,
        kind,
        len: 20,
    };
    let descrs = vec![in alloc; descr(NaRule::Absent), descr(NaRule::Nan)]?;
    let arrays = vec![in alloc;
        array(0, Kind::Str),
        array(1, Kind::Str),
        array(0, Kind::Str),
        array(0, Kind::Plain(PlainKind::Int)),
        array(1, Kind::Plain(PlainKind::Fixed(3))),
    ]?;
    Ok(Decls::new(descrs, arrays))
}

/// So many places of an array, from a start on.
fn view(array: u32, start: u32, count: u32, step: i32) -> View {
    View {
        array,
        start,
        count,
        step,
    }
}

/// These texts; none stands for a missing value.
fn items(alloc: Global, texts: &[Option<&str>]) -> Result<Items, Fail>
    ensures { IfOk result (λ items. AllByRecursion IsTextValue (values_of items)) }
{
    let mut values = ValueList::new(alloc);
    for text in texts {
        values.push(value(alloc, *text)?)?;
    }
    Ok(Items::Values(values))
}

/// This text, or a missing value.
fn value(alloc: Global, text: Option<&str>) -> Result<Value, Fail>
    ensures { IfOk result IsTextValue }
{
    match text {
        Some(text) => Ok(Value::Of(Text::from_bytes(alloc, text.as_bytes())?)),
        None => Ok(Value::Missing),
    }
}

/// The longest text that there may be.
fn longest(alloc: Global) -> Result<Items, Fail>
    ensures { IfOk result (λ items. AllByRecursion IsTextValue (values_of items)) }
{
    let text = str::from_utf8(&[b'x'; 65_536])?;
    items(alloc, &[Some(text)])
}

/// Whether a view is of a declared array and fits it.
fn is_view_of(decls: &Decls, view: &View) -> bool
    ensures { result ≡ is_view_of decls.now view.now }
{
    match decls.arrays().get(view.array as usize) {
        Some(array) => view.fits(array.len),
        None => false,
    }
}

/// Whether one operand of so many items and an output of so many places have a length.
fn fit(count: usize, places: u32) -> bool
    ensures { result ≡ ((count == 1) || (count == places)) }
{
    count == 1 || count == places as usize
}

/// Whether an array of this kind may hold these items, which are values, numbers or units.
fn may_hold(kind: Kind, items: &Items) -> bool
    ensures { result ≡ true → fits_kind kind items.now ≡ true }
{
    match (kind, items) {
        (Kind::Str, Items::Values(_)) => true,
        (Kind::Plain(PlainKind::Int), Items::Ints(_)) => true,
        (Kind::Plain(PlainKind::Fixed(width)), Items::Units(rows)) => {
            are_within(width, rows.as_slice())
        }
        _ => false,
    }
}

/// Whether no text is wider.
fn are_within(width: u16, rows: &[UnitList]) -> bool
    ensures { result ≡ are_within width rows.now }
{
    rows.iter().all(|row| row.len() <= width as usize)
}

/// Whether two kinds are the same, of those that the arrays have.
fn is_same(a: Kind, b: Kind) -> bool
    ensures { result ≡ true → is_same_kind a b ≡ true }
{
    match (a, b) {
        (Kind::Str, Kind::Str) => true,
        (Kind::Plain(PlainKind::Int), Kind::Plain(PlainKind::Int)) => true,
        (Kind::Plain(PlainKind::Fixed(v)), Kind::Plain(PlainKind::Fixed(w))) => v == w,
        _ => false,
    }
}

/// The call that sets places to items.
fn set(rt: &impl Abort, alloc: Global, decls: &Decls, out: View, items: Items) -> Result<Call, Fail>
    requires texts { AllByRecursion IsTextValue (values_of items) }
    ensures { IfOk result (IsCall decls.now) }
{
    let count = items.len();
    assert!(rt; is_view_of(decls, &out) && fit(count, out.count) && count >= 1 && count <= 8192);
    assert!(rt; may_hold(kind_of(decls, out.array), &items));
    Ok(Call {
        op: Op::Set,
        operands: OperandList::from_vec(vec![in alloc; Operand::Literal(items)]?),
        out: Some(out),
    })
}

/// The call that copies from places into others.
fn copy(rt: &impl Abort, alloc: Global, decls: &Decls, from: View, out: View) -> Result<Call, Fail>
    ensures { IfOk result (IsCall decls.now) }
{
    assert!(rt;
        is_view_of(decls, &from) && is_view_of(decls, &out) && fit(from.count as usize, out.count)
    );
    assert!(rt; is_same(kind_of(decls, from.array), kind_of(decls, out.array)));
    Ok(Call {
        op: Op::Copy,
        operands: OperandList::from_vec(vec![in alloc; Operand::View(from)]?),
        out: Some(out),
    })
}

/// The call that shows places.
fn show(rt: &impl Abort, alloc: Global, decls: &Decls, from: View) -> Result<Call, Fail>
    ensures { IfOk result (IsCall decls.now) }
{
    assert!(rt; is_view_of(decls, &from));
    Ok(Call {
        op: Op::Show,
        operands: OperandList::from_vec(vec![in alloc; Operand::View(from)]?),
        out: None,
    })
}

/// The call on the descriptor of this number as a whole.
fn whole(rt: &impl Abort, alloc: Global, decls: &Decls, op: Op, number: u8) -> Call
    requires takes { (entry op).needs ≡ DescrSort ∷ [] }
    requires alone { (entry op).may ≡ [] }
    requires never { (entry op).into ≡ Never }
    requires moves { (entry op).group ≡ None }
    requires number { descr_of op ≡ Some number }
    ensures { IsCall decls.now result }
{
    assert!(rt; (number as usize) < decls.descrs().len());
    Call {
        op,
        operands: OperandList::new(alloc),
        out: None,
    }
}

/// The run that performs these calls, one after another.
fn performed<'s>(alloc: Global, decls: &'s Decls, calls: &'s [Call]) -> Result<Listed<'s>, Memory>
    requires calls { AllByRecursion (IsCall decls.now) calls.now }
    requires few { length calls.now ≤ 8 }
{
    let mut run = Listed::new(alloc, decls)?;
    for number in 0..calls.len() {
        run.perform(alloc, decls, 0, number as u32, &calls[number])?;
    }
    Ok(run)
}

/// The first places of an array, of these home and index there, have these texts.
fn has_texts(rt: &impl Abort, run: &Listed<'_>, home: u8, index: u32, texts: &[&str]) {
    let store = run.store(home).expect(rt, "no such store");
    let lengths = store.lengths();
    assert!(rt; (index as usize) < lengths.len());
    for place in 0..texts.len() {
        assert!(rt; place < lengths[index as usize] as usize);
        let text = Seen::Bytes(texts[place].as_bytes());
        assert_eq!(rt; store.load(index, place as u32), text, "at {place}");
    }
}

/// What the reply of an act says: the code of its refusal, 0 where it is not refused, and its place, how
/// many items it shows, or how many bytes of an arena.
fn said(act: Option<&Act<'_>>) -> (u8, u64) {
    let Some(act) = act else {
        return (255, 0);
    };
    match &act.outcome().reply {
        Reply::Done => (0, 0),
        Reply::Shown(items) => (0, items.len() as u64),
        Reply::Sized(stats) => (0, stats.cursor),
        Reply::Pictured(picture) => (0, picture.arena.len() as u64),
        Reply::Refused { code, at } => (*code, u64::from(*at)),
    }
}

/// What an act was too heavy to read weighs, of each of its descriptors; nothing where it was read.
fn unread<'r>(act: Option<&'r Act<'_>>) -> &'r [u64] {
    match act {
        Some(act) => match act.operands() {
            Operands::Big(_) => act.weights(),
            _ => &[],
        },
        None => &[],
    }
}

#[test]
fn operands_are_read_before_results_are_put(rt: HostRuntime) -> Result<(), Fail> {
    let alloc = rt.alloc();
    let decls = declared(alloc)?;
    let rows: [(View, View, &[&str]); 3] = [
        (view(2, 2, 3, -1), view(2, 0, 3, 1), &["z", TEXT_16, "x"]),
        (view(2, 0, 2, 1), view(2, 1, 2, 1), &["x", "x", TEXT_16]),
        (view(2, 1, 2, 1), view(2, 0, 2, 1), &[TEXT_16, "z", "z"]),
    ];
    for (from, out, texts) in rows {
        let xyz = items(alloc, &[Some("x"), Some(TEXT_16), Some("z")])?;
        let calls = [
            set(&rt, alloc, &decls, view(2, 0, 3, 1), xyz)?,
            copy(&rt, alloc, &decls, from, out)?,
        ];
        let run = performed(alloc, &decls, &calls)?;
        assert_eq!(rt; run.count(), 2);
        assert_eq!(rt; said(run.act(1)), (0, 0));
        has_texts(&rt, &run, 0, 1, texts);
        has_texts(&rt, &run, 0, 0, &["", "", ""]);
    }
    Ok(())
}

#[test]
fn refused_call_is_an_act_and_changes_nothing(rt: HostRuntime) -> Result<(), Fail> {
    let alloc = rt.alloc();
    let decls = declared(alloc)?;
    let calls = [
        set(
            &rt,
            alloc,
            &decls,
            view(0, 0, 2, 1),
            items(alloc, &[Some("a"), Some(TEXT_16)])?,
        )?,
        set(
            &rt,
            alloc,
            &decls,
            view(0, 0, 2, 1),
            items(alloc, &[Some("b"), None])?,
        )?,
        show(&rt, alloc, &decls, view(0, 0, 2, 1))?,
    ];
    let run = performed(alloc, &decls, &calls)?;
    assert_eq!(rt; run.count(), 3);
    assert_eq!(rt; said(run.act(1)), (1, 1));
    assert_eq!(rt; said(run.act(2)), (0, 2));
    has_texts(&rt, &run, 0, 0, &["a", TEXT_16, ""]);
    Ok(())
}

#[test]
fn heavy_calls_are_weighed_and_not_read(rt: HostRuntime) -> Result<(), Fail> {
    let alloc = rt.alloc();
    let decls = declared(alloc)?;
    let calls = [
        set(&rt, alloc, &decls, view(0, 0, 14, 1), longest(alloc)?)?,
        set(&rt, alloc, &decls, view(0, 14, 6, 1), longest(alloc)?)?,
        show(&rt, alloc, &decls, view(0, 0, 20, 1))?,
        copy(&rt, alloc, &decls, view(0, 0, 20, 1), view(1, 0, 20, 1))?,
    ];
    let run = performed(alloc, &decls, &calls)?;
    assert_eq!(rt; said(run.act(1)), (0, 0));
    assert!(rt; unread(run.act(1)).is_empty());
    assert_eq!(rt; said(run.act(2)), (4, 0));
    assert_eq!(rt; unread(run.act(2)), [20 * 65_552].as_slice());
    assert_eq!(rt; said(run.act(3)), (4, 0));
    assert_eq!(rt; unread(run.act(3)), [20 * 65_552, 0].as_slice());
    has_texts(&rt, &run, 1, 0, &["", ""]);
    Ok(())
}

#[test]
fn statistics_and_pictures_are_of_their_descriptor(rt: HostRuntime) -> Result<(), Fail> {
    let alloc = rt.alloc();
    let decls = declared(alloc)?;
    let calls = [
        set(
            &rt,
            alloc,
            &decls,
            view(1, 0, 20, 1),
            items(alloc, &[Some(TEXT_16)])?,
        )?,
        whole(&rt, alloc, &decls, Op::Stats(0), 0),
        whole(&rt, alloc, &decls, Op::Stats(1), 1),
        whole(&rt, alloc, &decls, Op::Image(0), 0),
        whole(&rt, alloc, &decls, Op::Image(1), 1),
    ];
    let run = performed(alloc, &decls, &calls)?;
    for (k, size) in [(1, 0), (2, 340), (3, 0), (4, 340)] {
        assert_eq!(rt; said(run.act(k)), (0, size), "act {k}");
    }
    Ok(())
}

/// What is written of the items that an act shows.
fn shown_bytes(alloc: Global, act: Option<&Act<'_>>) -> Result<Vec<u8>, Memory> {
    let mut out = Vec::new(alloc);
    if let Some(act) = act {
        if let Reply::Shown(items) = &act.outcome().reply {
            push_items(&mut out, items)?;
        }
    }
    Ok(out)
}

#[test]
fn plain_arrays_hold_what_is_put(rt: HostRuntime) -> Result<(), Fail> {
    let alloc = rt.alloc();
    let decls = declared(alloc)?;
    let numbers = Items::Ints(IntList::from_slice(alloc, &[7, -8])?);
    let mut units = UnitLists::new(alloc);
    units.push(UnitList::from_slice(alloc, &[0xe9])?)?;
    let calls = [
        set(&rt, alloc, &decls, view(3, 0, 2, 2), numbers)?,
        copy(&rt, alloc, &decls, view(3, 0, 3, 1), view(3, 1, 3, 1))?,
        show(&rt, alloc, &decls, view(3, 3, 4, -1))?,
        set(&rt, alloc, &decls, view(4, 1, 2, 1), Items::Units(units))?,
        show(&rt, alloc, &decls, view(4, 0, 3, 1))?,
    ];
    let run = performed(alloc, &decls, &calls)?;
    for (k, bytes) in [
        (2, b"(-8,0,7,7)".as_slice()),
        (4, b"(units:0.0.0,units:e9.0.0,units:e9.0.0)"),
    ] {
        assert_eq!(rt;
            shown_bytes(alloc, run.act(k))?.as_slice(),
            bytes,
            "act {k}"
        );
    }
    assert!(rt;
        run.plain(0, 0)
            .is_some_and(|plain| plain.kind() == PlainKind::Int)
    );
    assert!(rt; run.plain(0, 1).is_none() && run.plain(2, 0).is_none());
    has_texts(&rt, &run, 0, 0, &["", ""]);
    Ok(())
}

#[test]
fn arrays_are_numbered_at_their_home(rt: HostRuntime) -> Result<(), Fail> {
    let decls = declared(rt.alloc())?;
    assert_eq!(rt; decls.arrays().len(), 5);
    for (array, index) in [(0, 0), (1, 0), (2, 1), (3, 0), (4, 0)] {
        assert_eq!(rt; index_at_home(&decls, array), index, "array {array}");
    }
    Ok(())
}
