ghost use Rattle.std.specs.Prelude.{◌≡◌, ◌≤◌, ◌==◌, ◌||◌, ◌∷◌, [], length, pos, true, Some, None, IfOk};
ghost use Rattle.std.specs.List.{AllByRecursion};
ghost use Rattle.sa_text.specs.Values.{IsTextValue};
ghost use Rattle.sa_plain.specs.Items.{count_of, values_of};
ghost use Rattle.sa_call.specs.Forms.{descr_of, entry};
ghost use Rattle.sa_call.specs.Told.{AreOperands};
ghost use Rattle.sa_call.specs.Decls.{Declared};
ghost use Rattle.sa_call.specs.Kinds.{are_values};
ghost use Rattle.sa_call.specs.declared.decls.Kind.TheVariants.{Str};
ghost use Rattle.sa_call.specs.declared.form.Into.TheVariants.{Never};
ghost use Rattle.sa_call.specs.declared.form.Sort.TheVariants.{Descr as DescrSort};

use super::*;
use sa_base::{Memory, Stats};
use sa_descr::{Descr, NaRule};
use sa_text::{Text, Value};
use std::alloc::Global;
use std::test::Fail;

#[test]
fn words_mean_calls(rt: HostRuntime) {
    let words: [(&[u8], Option<Op>); 33] = [
        (b"set", Some(Op::Set)),
        (b"copy", Some(Op::Copy)),
        (b"show", Some(Op::Show)),
        (b"add", Some(Op::Add)),
        (b"multiply", Some(Op::Multiply)),
        (b"center", Some(Op::Center(' '))),
        (b"ljust", Some(Op::Ljust(' '))),
        (b"rjust", Some(Op::Rjust(' '))),
        (b"zfill", Some(Op::Zfill)),
        (b"strip", Some(Op::Strip)),
        (b"lstrip", Some(Op::Lstrip)),
        (b"rstrip", Some(Op::Rstrip)),
        (b"replace", Some(Op::Replace)),
        (b"find", Some(Op::Find)),
        (b"rfind", Some(Op::Rfind)),
        (b"index", Some(Op::Index)),
        (b"rindex", Some(Op::Rindex)),
        (b"count", Some(Op::Count)),
        (b"starts", Some(Op::Starts)),
        (b"ends", Some(Op::Ends)),
        (b"equal", Some(Op::Equal)),
        (b"not_equal", Some(Op::NotEqual)),
        (b"less", Some(Op::Less)),
        (b"less_equal", Some(Op::LessEqual)),
        (b"greater", Some(Op::Greater)),
        (b"greater_equal", Some(Op::GreaterEqual)),
        (b"isalpha", Some(Op::IsAlpha)),
        (b"isdecimal", Some(Op::IsDecimal)),
        (b"isalnum", Some(Op::IsAlnum)),
        (b"isspace", Some(Op::IsSpace)),
        (b"stats", Some(Op::Stats(0))),
        (b"image", Some(Op::Image(0))),
        (b"sets", None),
    ];
    for (word, op) in words {
        assert!(rt; Op::from_word(word) == op, "{word:?}");
    }
    assert_eq!(rt; Op::Image(0).on_descr(3), Op::Image(3));
    assert_eq!(rt; Op::Copy.on_descr(3), Op::Copy);
    assert_eq!(rt; Op::Ljust(' ').with_fill('é'), Op::Ljust('é'));
    assert_eq!(rt; Op::Strip.with_fill('é'), Op::Strip);
}

#[test]
fn calls_have_their_forms(rt: HostRuntime) {
    let forms = [
        (Op::Set, Sort::Literal, 1, 0, Into::First, Gives::Items),
        (Op::Copy, Sort::View, 1, 0, Into::Must, Gives::Items),
        (Op::Show, Sort::View, 1, 0, Into::Never, Gives::Items),
        (Op::Add, Sort::Texts, 2, 0, Into::May, Gives::Items),
        (Op::Multiply, Sort::Texts, 2, 0, Into::May, Gives::Items),
        (Op::Center('x'), Sort::Texts, 2, 1, Into::May, Gives::Items),
        (Op::Zfill, Sort::Texts, 2, 0, Into::May, Gives::Items),
        (Op::Rstrip, Sort::Texts, 1, 1, Into::May, Gives::Items),
        (Op::Replace, Sort::Texts, 3, 1, Into::May, Gives::Items),
        (Op::Count, Sort::Texts, 2, 2, Into::May, Gives::Items),
        (Op::Less, Sort::Texts, 2, 0, Into::May, Gives::Items),
        (
            Op::Stats(1),
            Sort::Descr,
            1,
            0,
            Into::Never,
            Gives::Statistics,
        ),
        (Op::Image(1), Sort::Descr, 1, 0, Into::Never, Gives::Picture),
    ];
    for (op, need, needs, may, output, gives) in forms {
        let form = op.form();
        assert!(rt; form.needs.first() == Some(&need) && form.needs.len() == needs);
        assert!(rt; form.may.len() == may);
        assert!(rt; form.into == output);
        assert!(rt; form.gives == gives);
    }
}

/// A descriptor with this rule, and its array of 20 entries.
fn one_array(alloc: Global, na: NaRule) -> Result<Decls, Memory>
    ensures { IfOk result (λ d. (length d.descrs ≡ 1) × (d.arrays ≡ record { home = 0; kind = Str; len = 20 } ∷ [])) }
{
    let descrs = vec![in alloc; Descr { na, coerce: false }]?;
    let array = ArrayDecl {
        home: 0,
        kind: Kind::Str,
        len: 20,
    };
    Ok(Decls::new(descrs, vec![in alloc; array]?))
}

#[test]
fn arrays_have_kinds(rt: HostRuntime) -> Result<(), Fail> {
    let decls = one_array(rt.alloc(), NaRule::Absent)?;
    assert!(rt; kind_of(&decls, 0) == Kind::Str);
    assert!(rt; is_strings_array(&decls, 0));
    assert!(rt; !Kind::Plain(PlainKind::Bytes(3)).is_strings());
    Ok(())
}

/// A view of the first places of an array.
fn front(count: u32) -> View
    ensures { result ≡ record { array = 0; start = 0; count = count; step = pos 1 } }
{
    View {
        array: 0,
        start: 0,
        count,
        step: 1,
    }
}

/// So many times a text of this size.
fn texts(alloc: Global, size: usize, count: usize) -> Result<Items, Fail>
    ensures count { IfOk result (λ items. count_of items ≡ count) }
    ensures texts { IfOk result (λ items. AllByRecursion IsTextValue (values_of items)) }
    ensures values { IfOk result (λ items. are_values items ≡ true) }
{
    let text = Text::from_bytes(alloc, vec![in alloc; b'x'; size]?.as_slice())?;
    let one = ValueList::from_vec(vec![in alloc; Value::Of(text)]?);
    Ok(Items::Values(one.stretched(alloc, count)?))
}

/// Two missing values behind a text.
fn missing_behind(alloc: Global) -> Result<Items, Fail>
    ensures count { IfOk result (λ items. count_of items ≡ 3) }
    ensures texts { IfOk result (λ items. AllByRecursion IsTextValue (values_of items)) }
    ensures values { IfOk result (λ items. are_values items ≡ true) }
{
    let text = Text::from_bytes(alloc, b"ab")?;
    let values = vec![in alloc; Value::Of(text), Value::Missing, Value::Missing]?;
    Ok(Items::Values(ValueList::from_vec(values)))
}

/// Whether one operand of so many items and an output of so many places have a length.
fn fit(count: usize, places: u32) -> bool
    ensures { result ≡ ((count == 1) || (count == places)) }
{
    count == 1 || count == places as usize
}

/// What comes of setting the first places of the array to items. None where the call is not valid.
fn set(alloc: Global, na: NaRule, items: Items, places: u32) -> Result<Option<Outcome>, Memory>
    requires texts { AllByRecursion IsTextValue (values_of items) }
    requires values { are_values items ≡ true }
{
    let decls = one_array(alloc, na)?;
    let out = front(places);
    let count = items.len();
    if !out.fits(20) || !fit(count, places) || count < 1 || count > 8192 {
        return Ok(None);
    }
    let call = Call {
        op: Op::Set,
        operands: OperandList::from_vec(vec![in alloc; Operand::Literal(items)]?),
        out: Some(out),
    };
    let read = Operands::Items(ItemsList::new(alloc));
    Ok(Some(evaluate(alloc, &decls, &call, &read)?))
}

/// What comes of copying items from the first places of the array to its first places. None where the
/// call is not valid.
fn copied(alloc: Global, items: Items, places: u32) -> Result<Option<Outcome>, Memory>
    requires few { count_of items ≤ 20 }
    requires values { are_values items ≡ true }
{
    let decls = one_array(alloc, NaRule::Nan)?;
    let view = front(items.len() as u32);
    let out = front(places);
    if !view.fits(20) || !out.fits(20) || !fit(view.count as usize, places) {
        return Ok(None);
    }
    let call = Call {
        op: Op::Copy,
        operands: OperandList::from_vec(vec![in alloc; Operand::View(view)]?),
        out: Some(out),
    };
    let read = Operands::Items(ItemsList::from_vec(vec![in alloc; items]?));
    Ok(Some(evaluate(alloc, &decls, &call, &read)?))
}

/// What comes of showing the first places of the array, where they have these items. None where the call
/// is not valid.
fn shown(alloc: Global, items: Items) -> Result<Option<Outcome>, Memory>
    requires few { count_of items ≤ 20 }
    requires values { are_values items ≡ true }
{
    let decls = one_array(alloc, NaRule::Nan)?;
    let view = front(items.len() as u32);
    if !view.fits(20) {
        return Ok(None);
    }
    let call = Call {
        op: Op::Show,
        operands: OperandList::from_vec(vec![in alloc; Operand::View(view)]?),
        out: None,
    };
    let read = Operands::Items(ItemsList::from_vec(vec![in alloc; items]?));
    Ok(Some(evaluate(alloc, &decls, &call, &read)?))
}

/// What comes of a call on the descriptor as a whole.
fn whole(alloc: Global, op: Op, read: &Operands) -> Result<Outcome, Memory>
    requires takes { (entry op).needs ≡ DescrSort ∷ [] }
    requires alone { (entry op).may ≡ [] }
    requires never { (entry op).into ≡ Never }
    requires moves { (entry op).group ≡ None }
    requires first { descr_of op ≡ Some 0 }
    requires read { (decls : Declared) → AreOperands decls (record { op = op; operands = []; out = None }) read.now }
{
    let decls = one_array(alloc, NaRule::Absent)?;
    let call = Call {
        op,
        operands: OperandList::new(alloc),
        out: None,
    };
    evaluate(alloc, &decls, &call, read)
}

/// A picture of one entry, and of an arena of this size.
fn picture(alloc: Global, size: usize) -> Result<Picture, Memory>
    ensures { IfOk result (λ p. length p.entries ≡ 1) }
{
    Ok(Picture {
        entries: EntryList::from_vec(vec![in alloc; [0; 16]]?),
        arena: ByteList::from_vec(vec![in alloc; 0; size]?),
    })
}

/// What an outcome says: its code, 0 where it is not refused, its place or its number, and how many
/// items it has.
fn said(outcome: &Outcome) -> (u8, u64, usize) {
    let results = match &outcome.results {
        None => 0,
        Some(items) => items.len(),
    };
    match &outcome.reply {
        Reply::Done => (0, 0, results),
        Reply::Shown(items) => (0, 1, items.len()),
        Reply::Sized(stats) => (0, stats.cursor, results),
        Reply::Pictured(picture) => (0, 2, picture.entries.len()),
        Reply::Refused { code, at } => (*code, u64::from(*at), results),
    }
}

#[test]
fn set_moves_or_stretches_items(rt: HostRuntime) -> Result<(), Fail> {
    let alloc = rt.alloc();
    let one = set(alloc, NaRule::Absent, texts(alloc, 2, 1)?, 3)?;
    assert!(rt; one.map(|o| said(&o)) == Some((0, 0, 3)));
    let three = set(alloc, NaRule::Absent, texts(alloc, 2, 3)?, 3)?;
    assert!(rt; three.map(|o| said(&o)) == Some((0, 0, 3)));
    let missing = set(alloc, NaRule::Nan, missing_behind(alloc)?, 3)?;
    assert!(rt; missing.map(|o| said(&o)) == Some((0, 0, 3)));
    let refused = set(alloc, NaRule::Absent, missing_behind(alloc)?, 3)?;
    assert!(rt; refused.map(|o| said(&o)) == Some((1, 1, 0)));
    Ok(())
}

#[test]
fn calls_that_weigh_too_much_are_refused(rt: HostRuntime) -> Result<(), Fail> {
    let alloc = rt.alloc();
    let literal = set(alloc, NaRule::Absent, texts(alloc, 65_536, 16)?, 16)?;
    assert!(rt; literal.map(|o| said(&o)) == Some((4, 0, 0)));
    let results = set(alloc, NaRule::Absent, texts(alloc, 65_536, 1)?, 20)?;
    assert!(rt; results.map(|o| said(&o)) == Some((4, 14, 0)));
    Ok(())
}

#[test]
fn copy_and_show_move_items(rt: HostRuntime) -> Result<(), Fail> {
    let alloc = rt.alloc();
    let three = copied(alloc, texts(alloc, 2, 3)?, 3)?;
    assert!(rt; three.map(|o| said(&o)) == Some((0, 0, 3)));
    let one = copied(alloc, texts(alloc, 2, 1)?, 20)?;
    assert!(rt; one.map(|o| said(&o)) == Some((0, 0, 20)));
    let all = shown(alloc, texts(alloc, 2, 20)?)?;
    assert!(rt; all.map(|o| said(&o)) == Some((0, 1, 20)));
    let single = shown(alloc, texts(alloc, 2, 1)?)?;
    assert!(rt; single.map(|o| said(&o)) == Some((0, 1, 1)));
    Ok(())
}

#[test]
fn stats_and_image_answer(rt: HostRuntime) -> Result<(), Fail> {
    let alloc = rt.alloc();
    let stats = Stats {
        cursor: 7,
        live: 5,
        dead: 2,
        outside: 1,
    };
    let sized = whole(alloc, Op::Stats(0), &Operands::Stats(stats))?;
    assert!(rt; said(&sized) == (0, 7, 0));
    let small = whole(alloc, Op::Image(0), &Operands::Picture(picture(alloc, 32)?))?;
    assert!(rt; said(&small) == (0, 2, 1));
    let heavy = whole(
        alloc,
        Op::Image(0),
        &Operands::Picture(picture(alloc, 1_048_561)?),
    )?;
    assert!(rt; said(&heavy) == (4, 0, 0));
    Ok(())
}
