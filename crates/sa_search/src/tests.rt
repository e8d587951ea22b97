use crate::{count, ends, find, index, rfind, rindex, starts};
use sa_text::Text;
use std::alloc::Global;
use std::process::Abort;
use std::test::Fail;

/// Two texts, a start and an end, and Python's `a.find(b, start, end)`, `a.rfind(..)`, `a.count(..)`,
/// `a.startswith(..)` and `a.endswith(..)`.
static SOUGHT: [(&str, &str, i64, i64, [i64; 3], [bool; 2]); 63] = [
    ("abcabc", "abc", 0, i64::MAX, [0, 3, 2], [true, true]),
    ("abcabc", "c", 0, i64::MAX, [2, 5, 2], [false, true]),
    ("abcabc", "bc", 0, i64::MAX, [1, 4, 2], [false, true]),
    ("abcabc", "abcabc", 0, i64::MAX, [0, 0, 1], [true, true]),
    (
        "abcabc",
        "abcabca",
        0,
        i64::MAX,
        [-1, -1, 0],
        [false, false],
    ),
    ("aaaa", "aa", 0, i64::MAX, [0, 2, 2], [true, true]),
    ("aaaaa", "aa", 0, i64::MAX, [0, 3, 2], [true, true]),
    ("aaaaa", "aa", 1, 4, [1, 2, 1], [true, true]),
    ("ababababa", "aba", 0, i64::MAX, [0, 6, 2], [true, true]),
    ("ababababa", "aba", 1, 8, [2, 4, 1], [false, false]),
    ("abcabc", "abc", 1, i64::MAX, [3, 3, 1], [false, true]),
    ("abcabc", "abc", 0, 5, [0, 0, 1], [true, false]),
    ("abcabc", "abc", 4, 6, [-1, -1, 0], [false, false]),
    ("abcabc", "abc", -3, i64::MAX, [3, 3, 1], [true, true]),
    ("abcabc", "abc", -100, 100, [0, 3, 2], [true, true]),
    ("abcabc", "abc", 0, -3, [0, 0, 1], [true, true]),
    ("abcabc", "abc", 0, -4, [-1, -1, 0], [false, false]),
    ("abcabc", "abc", -3, -1, [-1, -1, 0], [false, false]),
    ("abcabc", "c", 5, 3, [-1, -1, 0], [false, false]),
    ("abcabc", "c", -1, -1, [-1, -1, 0], [false, false]),
    ("abcabc", "c", 6, i64::MAX, [-1, -1, 0], [false, false]),
    ("abcabc", "c", i64::MIN, i64::MAX, [2, 5, 2], [false, true]),
    (
        "abcabc",
        "c",
        i64::MAX,
        i64::MAX,
        [-1, -1, 0],
        [false, false],
    ),
    (
        "abcabc",
        "a",
        i64::MIN,
        i64::MIN,
        [-1, -1, 0],
        [false, false],
    ),
    ("abc", "", 0, i64::MAX, [0, 3, 4], [true, true]),
    ("abc", "", 1, 2, [1, 2, 2], [true, true]),
    ("abc", "", 3, 9, [3, 3, 1], [true, true]),
    ("abc", "", 4, 9, [-1, -1, 0], [false, false]),
    ("abc", "", 2, 1, [-1, -1, 0], [false, false]),
    ("abc", "", -1, i64::MAX, [2, 3, 2], [true, true]),
    ("abc", "", 0, -1, [0, 2, 3], [true, true]),
    ("abc", "", -9, -9, [0, 0, 1], [true, true]),
    ("", "", 0, i64::MAX, [0, 0, 1], [true, true]),
    ("", "", 1, 1, [-1, -1, 0], [false, false]),
    ("", "", -1, -1, [0, 0, 1], [true, true]),
    ("", "a", 0, i64::MAX, [-1, -1, 0], [false, false]),
    ("\u{e9}\u{20ac}\u{1f600}", "", 1, 2, [1, 2, 2], [true, true]),
    (
        "\u{e9}\u{20ac}\u{1f600}",
        "",
        -2,
        -1,
        [1, 2, 2],
        [true, true],
    ),
    (
        "\u{e9}a\u{e9}b",
        "\u{e9}",
        0,
        i64::MAX,
        [0, 2, 2],
        [true, false],
    ),
    (
        "\u{e9}a\u{e9}b",
        "\u{e9}",
        1,
        i64::MAX,
        [2, 2, 1],
        [false, false],
    ),
    ("\u{e9}a\u{e9}b", "\u{e9}", -2, -1, [2, 2, 1], [true, true]),
    ("\u{e9}a\u{e9}b", "b", 0, i64::MAX, [3, 3, 1], [false, true]),
    ("\u{e9}", "\u{a9}", 0, i64::MAX, [-1, -1, 0], [false, false]),
    (
        "\u{e3}\u{e9}\u{a9}",
        "\u{a9}",
        0,
        i64::MAX,
        [2, 2, 1],
        [false, true],
    ),
    (
        "\u{c3}\u{a9}",
        "\u{e9}",
        0,
        i64::MAX,
        [-1, -1, 0],
        [false, false],
    ),
    (
        "\u{20ac}\u{20ad}\u{20ac}",
        "\u{20ad}",
        0,
        i64::MAX,
        [1, 1, 1],
        [false, false],
    ),
    (
        "\u{20ac}\u{20ac}\u{20ac}\u{20ac}",
        "\u{20ac}\u{20ac}",
        0,
        i64::MAX,
        [0, 2, 2],
        [true, true],
    ),
    (
        "\u{20ac}\u{20ac}\u{20ac}\u{20ac}",
        "\u{20ac}\u{20ac}",
        1,
        i64::MAX,
        [1, 2, 1],
        [true, true],
    ),
    (
        "\u{1f600}\u{1f601}\u{1f600}",
        "\u{1f600}",
        0,
        i64::MAX,
        [0, 2, 2],
        [true, true],
    ),
    (
        "\u{1f600}\u{1f601}\u{1f600}",
        "\u{1f601}",
        0,
        i64::MAX,
        [1, 1, 1],
        [false, false],
    ),
    (
        "\u{1f600}\u{1f601}\u{1f600}",
        "\u{1f600}",
        1,
        3,
        [2, 2, 1],
        [false, true],
    ),
    (
        "\u{1f640}\u{640}",
        "\u{640}",
        0,
        i64::MAX,
        [1, 1, 1],
        [false, true],
    ),
    ("e\u{301}\u{e9}", "e", 0, i64::MAX, [0, 0, 1], [true, false]),
    ("\u{0}a\u{0}", "\u{0}", 0, i64::MAX, [0, 2, 2], [true, true]),
    (
        "\u{65e5}\u{672c}\u{8a9e}\u{65e5}\u{672c}",
        "\u{672c}",
        0,
        i64::MAX,
        [1, 4, 2],
        [false, true],
    ),
    (
        "\u{65e5}\u{672c}\u{8a9e}\u{65e5}\u{672c}",
        "\u{65e5}\u{672c}",
        0,
        -1,
        [0, 0, 1],
        [true, false],
    ),
    (
        "\u{10ffff}a",
        "\u{10ffff}",
        0,
        i64::MAX,
        [0, 0, 1],
        [true, false],
    ),
    (
        "ab\u{e9}\u{1f600}c\u{65e5}ab\u{e9}\u{1f600}c\u{65e5}ab\u{e9}\u{1f600}c\u{65e5}ab\u{e9}\u{1f600}c\u{65e5}ab\u{e9}\u{1f600}c\u{65e5}ab\u{e9}\u{1f600}c\u{65e5}needle\u{e9}x\u{e9}x\u{e9}x\u{e9}x",
        "needle",
        0,
        i64::MAX,
        [36, 36, 1],
        [false, false],
    ),
    (
        "ab\u{e9}\u{1f600}c\u{65e5}ab\u{e9}\u{1f600}c\u{65e5}ab\u{e9}\u{1f600}c\u{65e5}ab\u{e9}\u{1f600}c\u{65e5}ab\u{e9}\u{1f600}c\u{65e5}ab\u{e9}\u{1f600}c\u{65e5}needle\u{e9}x\u{e9}x\u{e9}x\u{e9}x",
        "c\u{65e5}",
        12,
        -8,
        [16, 34, 4],
        [false, false],
    ),
    (
        "ab\u{e9}\u{1f600}c\u{65e5}ab\u{e9}\u{1f600}c\u{65e5}ab\u{e9}\u{1f600}c\u{65e5}ab\u{e9}\u{1f600}c\u{65e5}ab\u{e9}\u{1f600}c\u{65e5}ab\u{e9}\u{1f600}c\u{65e5}needle\u{e9}x\u{e9}x\u{e9}x\u{e9}x",
        "\u{e9}x",
        -7,
        i64::MAX,
        [44, 48, 3],
        [false, true],
    ),
    (
        "ab\u{e9}\u{1f600}c\u{65e5}ab\u{e9}\u{1f600}c\u{65e5}ab\u{e9}\u{1f600}c\u{65e5}ab\u{e9}\u{1f600}c\u{65e5}ab\u{e9}\u{1f600}c\u{65e5}ab\u{e9}\u{1f600}c\u{65e5}needle\u{e9}x\u{e9}x\u{e9}x\u{e9}x",
        "\u{1f600}c\u{65e5}ab",
        -40,
        30,
        [15, 21, 2],
        [false, false],
    ),
    (
        "ab\u{e9}\u{1f600}c\u{65e5}ab\u{e9}\u{1f600}c\u{65e5}ab\u{e9}\u{1f600}c\u{65e5}ab\u{e9}\u{1f600}c\u{65e5}ab\u{e9}\u{1f600}c\u{65e5}ab\u{e9}\u{1f600}c\u{65e5}needle\u{e9}x\u{e9}x\u{e9}x\u{e9}x",
        "",
        20,
        40,
        [20, 40, 21],
        [true, true],
    ),
    (
        "ab\u{e9}\u{1f600}c\u{65e5}ab\u{e9}\u{1f600}c\u{65e5}ab\u{e9}\u{1f600}c\u{65e5}ab\u{e9}\u{1f600}c\u{65e5}ab\u{e9}\u{1f600}c\u{65e5}ab\u{e9}\u{1f600}c\u{65e5}needle\u{e9}x\u{e9}x\u{e9}x\u{e9}x",
        "ab\u{e9}\u{1f600}c\u{65e5}ab\u{e9}\u{1f600}c\u{65e5}ab\u{e9}\u{1f600}c\u{65e5}ab\u{e9}\u{1f600}c\u{65e5}ab\u{e9}\u{1f600}c\u{65e5}ab\u{e9}\u{1f600}c\u{65e5}need",
        0,
        i64::MAX,
        [0, 0, 1],
        [true, false],
    ),
];

/// A place, or none for -1.
fn place(found: i64) -> Option<i64> {
    if found == -1 { None } else { Some(found) }
}

/// The calls on two texts between two places; `index` and `rindex` answer none for -1.
fn try_search(
    rt: &impl Abort,
    alloc: Global,
    texts: [&str; 2],
    between: [i64; 2],
    places: [i64; 3],
    stands: [bool; 2],
) -> Result<(), Fail> {
    let [text, part] = texts;
    let [start, end] = between;
    let a = Text::from_bytes(alloc, text.as_bytes())?;
    let b = Text::from_bytes(alloc, part.as_bytes())?;
    let found = [
        find(&a, &b, start, end),
        rfind(&a, &b, start, end),
        count(&a, &b, start, end),
    ];
    assert_eq!(rt; found, places, "{part:?} in {text:?} from {start} to {end}");
    let ended = [starts(&a, &b, start, end), ends(&a, &b, start, end)];
    assert_eq!(rt; ended, stands, "{part:?} in {text:?} from {start} to {end}");
    assert_eq!(rt; index(&a, &b, start, end), place(places[0]));
    assert_eq!(rt; rindex(&a, &b, start, end), place(places[1]));
    Ok(())
}

#[test]
fn texts_are_sought_as_python_does(rt: HostRuntime) -> Result<(), Fail> {
    let alloc = rt.alloc();
    for (text, part, start, end, places, stands) in &SOUGHT {
        try_search(&rt, alloc, [text, part], [*start, *end], *places, *stands)?;
    }
    Ok(())
}
