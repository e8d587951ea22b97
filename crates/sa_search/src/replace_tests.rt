use crate::replace;
use sa_text::{EditError, Text};
use std::alloc::Global;
use std::process::Abort;
use std::test::Fail;

/// A text, an old and a new part and a count, and Python's `a.replace(old, new, count)`.
static REPLACED: [(&str, &str, &str, i64, &str); 40] = [
    ("abcabc", "abc", "x", -1, "xx"),
    ("abcabc", "abc", "x", 1, "xabc"),
    ("abcabc", "abc", "x", 0, "abcabc"),
    ("abcabc", "abc", "x", 2, "xx"),
    ("abcabc", "b", "", -1, "acac"),
    ("abcabc", "c", "longer", -1, "ablongerablonger"),
    ("abcabc", "x", "y", -1, "abcabc"),
    ("aaaaa", "aa", "b", -1, "bba"),
    ("aaaaa", "aa", "b", 1, "baaa"),
    ("aaaaa", "aa", "aaa", -1, "aaaaaaa"),
    ("ababababa", "aba", "x", -1, "xbxba"),
    ("abc", "abc", "", -1, ""),
    ("abc", "abcd", "x", -1, "abc"),
    ("abc", "abc", "abc", -1, "abc"),
    ("abc", "", "-", -1, "-a-b-c-"),
    ("abc", "", "-", 0, "abc"),
    ("abc", "", "-", 1, "-abc"),
    ("abc", "", "-", 3, "-a-b-c"),
    ("abc", "", "-", 4, "-a-b-c-"),
    ("abc", "", "-", i64::MAX, "-a-b-c-"),
    ("abc", "", "-", i64::MIN, "-a-b-c-"),
    ("", "", "x", -1, "x"),
    ("", "", "x", 0, ""),
    ("", "", "x", 1, "x"),
    ("", "a", "x", -1, ""),
    ("abc", "", "", -1, "abc"),
    (
        "\u{e9}\u{20ac}\u{1f600}",
        "",
        "-",
        -1,
        "-\u{e9}-\u{20ac}-\u{1f600}-",
    ),
    (
        "\u{e9}\u{20ac}\u{1f600}",
        "",
        "\u{1f600}",
        2,
        "\u{1f600}\u{e9}\u{1f600}\u{20ac}\u{1f600}",
    ),
    (
        "\u{e9}a\u{e9}",
        "\u{e9}",
        "\u{20ac}",
        -1,
        "\u{20ac}a\u{20ac}",
    ),
    ("\u{e9}a\u{e9}", "\u{e9}", "e\u{301}", 1, "e\u{301}a\u{e9}"),
    (
        "\u{20ac}\u{20ad}\u{20ac}",
        "\u{20ad}",
        "\u{1f600}",
        -1,
        "\u{20ac}\u{1f600}\u{20ac}",
    ),
    ("\u{c3}\u{a9}", "\u{e9}", "x", -1, "\u{c3}\u{a9}"),
    ("\u{1f600}\u{1f600}", "\u{1f600}", "", -1, ""),
    (
        "\u{1f600}\u{1f601}",
        "\u{1f601}",
        "\u{1f600}",
        -1,
        "\u{1f600}\u{1f600}",
    ),
    ("\u{0}a\u{0}", "\u{0}", "\\0", -1, "\\0a\\0"),
    (
        "\u{65e5}\u{672c}\u{8a9e}",
        "\u{672c}",
        "",
        -1,
        "\u{65e5}\u{8a9e}",
    ),
    ("a-b-c-d", "-", " - ", 2, "a - b - c-d"),
    (
        "a text of more than fourteen bytes",
        "t",
        "TT",
        -1,
        "a TTexTT of more TThan fourTTeen byTTes",
    ),
    (
        "ab\u{e9}\u{1f600}c\u{65e5}ab\u{e9}\u{1f600}c\u{65e5}ab\u{e9}\u{1f600}c\u{65e5}ab\u{e9}\u{1f600}c\u{65e5}ab\u{e9}\u{1f600}c\u{65e5}ab\u{e9}\u{1f600}c\u{65e5}needle\u{e9}x\u{e9}x\u{e9}x\u{e9}x",
        "needle",
        "",
        -1,
        "ab\u{e9}\u{1f600}c\u{65e5}ab\u{e9}\u{1f600}c\u{65e5}ab\u{e9}\u{1f600}c\u{65e5}ab\u{e9}\u{1f600}c\u{65e5}ab\u{e9}\u{1f600}c\u{65e5}ab\u{e9}\u{1f600}c\u{65e5}\u{e9}x\u{e9}x\u{e9}x\u{e9}x",
    ),
    (
        "ab\u{e9}\u{1f600}c\u{65e5}ab\u{e9}\u{1f600}c\u{65e5}ab\u{e9}\u{1f600}c\u{65e5}ab\u{e9}\u{1f600}c\u{65e5}ab\u{e9}\u{1f600}c\u{65e5}ab\u{e9}\u{1f600}c\u{65e5}needle\u{e9}x\u{e9}x\u{e9}x\u{e9}x",
        "\u{e9}",
        "ee",
        3,
        "abee\u{1f600}c\u{65e5}abee\u{1f600}c\u{65e5}abee\u{1f600}c\u{65e5}ab\u{e9}\u{1f600}c\u{65e5}ab\u{e9}\u{1f600}c\u{65e5}ab\u{e9}\u{1f600}c\u{65e5}needle\u{e9}x\u{e9}x\u{e9}x\u{e9}x",
    ),
];

/// A text with some of its parts replaced.
fn try_replace(rt: &impl Abort, alloc: Global, texts: [&str; 4], count: i64) -> Result<(), Fail> {
    let [text, old, new, wanted] = texts;
    let a = Text::from_bytes(alloc, text.as_bytes())?;
    let old = Text::from_bytes(alloc, old.as_bytes())?;
    let new = Text::from_bytes(alloc, new.as_bytes())?;
    let made = replace(alloc, &a, &old, &new, count)?;
    assert!(rt;
        made.as_bytes() == wanted.as_bytes(),
        "{count} times in {text:?}"
    );
    Ok(())
}

#[test]
fn texts_are_replaced_as_python_does(rt: HostRuntime) -> Result<(), Fail> {
    let alloc = rt.alloc();
    for (text, old, new, count, wanted) in &REPLACED {
        try_replace(&rt, alloc, [text, old, new, wanted], *count)?;
    }
    Ok(())
}

/// How many bytes a text of so many `x` has with some of them replaced; none where it is too long.
fn replaced_size(
    alloc: Global,
    length: usize,
    old: &str,
    new: &str,
    count: i64,
) -> Result<Option<usize>, Fail> {
    let a = Text::from_bytes(alloc, vec![in alloc; b'x'; length]?.as_slice())?;
    let old = Text::from_bytes(alloc, old.as_bytes())?;
    let new = Text::from_bytes(alloc, new.as_bytes())?;
    match replace(alloc, &a, &old, &new, count) {
        Ok(text) => Ok(Some(text.size())),
        Err(EditError::TooLong) => Ok(None),
        Err(EditError::Memory) => Err(EditError::Memory)?,
    }
}

/// How many `x` a text has, an old and a new part and a count, and the size of Python's replacement where
/// its UTF-8 has at most 65,536 bytes.
static LONGEST: [(usize, &str, &str, i64, Option<usize>); 10] = [
    (32_768, "x", "yy", -1, Some(65_536)),
    (32_769, "x", "yy", -1, None),
    (32_769, "x", "yy", 32_767, Some(65_536)),
    (32_769, "x", "yy", 32_768, None),
    (65_535, "x", "\u{e9}", 1, Some(65_536)),
    (65_535, "x", "\u{e9}", 2, None),
    (32_767, "", "y", -1, Some(65_535)),
    (32_768, "", "y", -1, None),
    (65_536, "xx", "yy", -1, Some(65_536)),
    (
        65_536,
        "y",
        "a text that does not come in",
        -1,
        Some(65_536),
    ),
];

#[test]
fn the_longest_text_has_65536_bytes(rt: HostRuntime) -> Result<(), Fail> {
    let alloc = rt.alloc();
    for (length, old, new, count, wanted) in &LONGEST {
        let size = replaced_size(alloc, *length, old, new, *count)?;
        assert_eq!(rt; size, *wanted, "{old:?} in {length}, {count} times");
    }
    Ok(())
}
