use crate::{compare, is_alnum, is_alpha, is_decimal, is_space};
use sa_text::Text;
use std::alloc::Global;
use std::cmp::Ordering;
use std::process::Abort;
use std::test::Fail;

/// A general category, some of its code points, and of each of them and of the text of them all Python's
/// `t.isalpha()`, `t.isdecimal()`, `t.isalnum()` and `t.isspace()`. Surrogates, Cs, stand in no text.
static CATEGORIES: [(&str, &str, [bool; 4]); 30] = [
    (
        "Lu",
        "A\u{c9}\u{10400}\u{1d400}",
        [true, false, true, false],
    ),
    ("Ll", "z\u{df}\u{149}\u{1d41a}", [true, false, true, false]),
    ("Lt", "\u{1c5}\u{1fbc}", [true, false, true, false]),
    ("Lm", "\u{2b0}\u{3005}\u{30fc}", [true, false, true, false]),
    (
        "Lo",
        "\u{aa}\u{5d0}\u{65e5}\u{20000}",
        [true, false, true, false],
    ),
    (
        "Mn",
        "\u{301}\u{e31}\u{e0100}",
        [false, false, false, false],
    ),
    ("Mc", "\u{903}\u{bbe}", [false, false, false, false]),
    ("Me", "\u{20dd}\u{488}", [false, false, false, false]),
    (
        "Nd",
        "07\u{663}\u{ff15}\u{1d7d8}",
        [false, true, true, false],
    ),
    (
        "Nl",
        "\u{2160}\u{16ee}\u{3007}",
        [false, false, true, false],
    ),
    (
        "No",
        "\u{b2}\u{bd}\u{2460}\u{10107}",
        [false, false, true, false],
    ),
    ("Pc", "_\u{203f}", [false, false, false, false]),
    ("Pd", "-\u{2014}", [false, false, false, false]),
    ("Ps", "([\u{300c}", [false, false, false, false]),
    ("Pe", ")}\u{300d}", [false, false, false, false]),
    ("Pi", "\u{ab}\u{2018}", [false, false, false, false]),
    ("Pf", "\u{bb}\u{2019}", [false, false, false, false]),
    ("Po", "!*\u{b6}\u{3001}", [false, false, false, false]),
    ("Sm", "+~\u{2212}\u{221e}", [false, false, false, false]),
    ("Sc", "$\u{20ac}", [false, false, false, false]),
    ("Sk", "^`\u{b4}", [false, false, false, false]),
    (
        "So",
        "\u{a9}\u{2603}\u{1f600}",
        [false, false, false, false],
    ),
    (
        "Zs",
        " \u{a0}\u{1680}\u{2003}\u{3000}",
        [false, false, false, true],
    ),
    ("Zl", "\u{2028}", [false, false, false, true]),
    ("Zp", "\u{2029}", [false, false, false, true]),
    (
        "Cc",
        "\u{9}\u{a}\u{b}\u{c}\u{d}\u{1c}\u{1f}\u{85}",
        [false, false, false, true],
    ),
    ("Cc", "\u{0}\u{7f}\u{80}", [false, false, false, false]),
    (
        "Cf",
        "\u{ad}\u{200b}\u{feff}\u{e0001}",
        [false, false, false, false],
    ),
    (
        "Co",
        "\u{e000}\u{f0000}\u{10fffd}",
        [false, false, false, false],
    ),
    (
        "Cn",
        "\u{378}\u{fdd0}\u{ffff}\u{10ffff}",
        [false, false, false, false],
    ),
];

/// A text, and the same four answers.
static TEXTS: [(&str, [bool; 4]); 35] = [
    ("", [false, false, false, false]),
    ("a1", [false, false, true, false]),
    ("a_", [false, false, false, false]),
    ("\u{663}4", [false, true, true, false]),
    ("abcXYZ", [true, false, true, false]),
    ("0123456789", [false, true, true, false]),
    ("e\u{301}", [false, false, false, false]),
    ("\u{e9}", [true, false, true, false]),
    ("3.5", [false, false, false, false]),
    ("-1", [false, false, false, false]),
    ("\u{b2}", [false, false, true, false]),
    ("\u{2160}\u{bd}7z", [false, false, true, false]),
    ("1 2", [false, false, false, false]),
    (" a", [false, false, false, false]),
    ("a ", [false, false, false, false]),
    ("\u{9} \u{3000}\u{a}", [false, false, false, true]),
    (" \u{200b}", [false, false, false, false]),
    ("\u{65e5}\u{672c}\u{8a9e}", [true, false, true, false]),
    ("\u{65e5}\u{672c}\u{8a9e}1", [false, false, true, false]),
    ("\u{65e5}\u{672c}\u{8a9e}!", [false, false, false, false]),
    ("\u{1f600}", [false, false, false, false]),
    ("a\u{0}", [false, false, false, false]),
    ("\u{0}", [false, false, false, false]),
    ("@", [false, false, false, false]),
    ("Z[", [false, false, false, false]),
    ("/0", [false, false, false, false]),
    ("9:", [false, false, false, false]),
    ("`a", [false, false, false, false]),
    ("z{", [false, false, false, false]),
    (
        "letters that are many, and a space between them",
        [false, false, false, false],
    ),
    (
        "aLongTextOfLettersAloneWithNothingElse",
        [true, false, true, false],
    ),
    (
        "aLongTextOfLettersAloneWithNothingElse\u{1c5}\u{2b0}\u{20000}",
        [true, false, true, false],
    ),
    (
        "aLongTextOfLettersAloneWithADigitAtItsEnd1",
        [false, false, true, false],
    ),
    (
        "31415926535897932384626433832795\u{663}",
        [false, true, true, false],
    ),
    (
        "31415926535897932384626433832795\u{b2}",
        [false, false, true, false],
    ),
];

/// Texts in the order of Python's `sorted`.
static SORTED: [&str; 36] = [
    "",
    "\u{0}",
    "10",
    "9",
    "Z",
    "a",
    "a\u{0}",
    "a text of more than sixteen bytes",
    "a text of more than sixteen \u{e000}",
    "a text of more than sixteen \u{10000}",
    "ab",
    "abc",
    "abd",
    "a\u{10ffff}",
    "b",
    "e\u{301}",
    "z",
    "\u{7f}",
    "\u{80}",
    "\u{e9}",
    "\u{e9}a",
    "\u{7ff}",
    "\u{800}",
    "\u{65e5}\u{6728}",
    "\u{65e5}\u{672c}",
    "\u{65e5}\u{672c}\u{8a9e}",
    "\u{d7ff}",
    "\u{e000}",
    "\u{ff21}b",
    "\u{fffd}",
    "\u{ffff}",
    "\u{10000}",
    "\u{1f600}a",
    "\u{3ffff}",
    "\u{40000}",
    "\u{10ffff}",
];

/// A text has the four answers.
fn try_answers(rt: &impl Abort, alloc: Global, text: &str, wanted: [bool; 4]) -> Result<(), Fail> {
    let a = Text::from_bytes(alloc, text.as_bytes())?;
    let found = [is_alpha(&a), is_decimal(&a), is_alnum(&a), is_space(&a)];
    assert_eq!(rt; found, wanted, "of {text:?}");
    Ok(())
}

#[test]
fn code_points_of_each_category_are_told_as_python_does(rt: HostRuntime) -> Result<(), Fail> {
    let alloc = rt.alloc();
    for (_, points, wanted) in &CATEGORIES {
        try_answers(&rt, alloc, points, *wanted)?;
        for point in points.chars() {
            let mut bytes = [0; 4];
            try_answers(&rt, alloc, point.encode_utf8(&mut bytes), *wanted)?;
        }
    }
    Ok(())
}

#[test]
fn texts_are_told_as_python_does(rt: HostRuntime) -> Result<(), Fail> {
    let alloc = rt.alloc();
    for (text, wanted) in &TEXTS {
        try_answers(&rt, alloc, text, *wanted)?;
    }
    Ok(())
}

/// A text at a place of the list is ordered to each other as their places are.
fn try_order(rt: &impl Abort, alloc: Global, place: usize, text: &str) -> Result<(), Fail> {
    let a = Text::from_bytes(alloc, text.as_bytes())?;
    for (other, second) in SORTED.iter().enumerate() {
        let b = Text::from_bytes(alloc, second.as_bytes())?;
        assert_eq!(rt;
            compare(&a, &b),
            place.cmp(&other),
            "{text:?} and {second:?}"
        );
    }
    Ok(())
}

#[test]
fn texts_are_ordered_as_python_does(rt: HostRuntime) -> Result<(), Fail> {
    let alloc = rt.alloc();
    for (place, text) in SORTED.iter().enumerate() {
        try_order(&rt, alloc, place, text)?;
    }
    Ok(())
}
