use crate::{add, center, ljust, lstrip, multiply, rjust, rstrip, strip, zfill};
use sa_text::{EditError, Text};
use std::alloc::Global;
use std::process::Abort;
use std::test::Fail;

/// A text, a width and a fill, and Python's `t.center(w, f)`, `t.ljust(w, f)` and `t.rjust(w, f)`.
const JUSTIFIED: [(&str, i64, char, &str, &str, &str); 12] = [
    ("ab", 5, ' ', "  ab ", "ab   ", "   ab"),
    ("abc", 6, ' ', " abc  ", "abc   ", "   abc"),
    ("ab", 4, '.', ".ab.", "ab..", "..ab"),
    ("ab", -1, ' ', "ab", "ab", "ab"),
    ("ab", 2, 'x', "ab", "ab", "ab"),
    (
        "",
        3,
        '\u{e9}',
        "\u{e9}\u{e9}\u{e9}",
        "\u{e9}\u{e9}\u{e9}",
        "\u{e9}\u{e9}\u{e9}",
    ),
    (
        "\u{e9}",
        4,
        '\u{20ac}',
        "\u{20ac}\u{e9}\u{20ac}\u{20ac}",
        "\u{e9}\u{20ac}\u{20ac}\u{20ac}",
        "\u{20ac}\u{20ac}\u{20ac}\u{e9}",
    ),
    (
        "a\u{1f600}",
        7,
        '\u{1f600}',
        "\u{1f600}\u{1f600}\u{1f600}a\u{1f600}\u{1f600}\u{1f600}",
        "a\u{1f600}\u{1f600}\u{1f600}\u{1f600}\u{1f600}\u{1f600}",
        "\u{1f600}\u{1f600}\u{1f600}\u{1f600}\u{1f600}a\u{1f600}",
    ),
    (
        "e\u{301}",
        6,
        '\0',
        "\0\0e\u{301}\0\0",
        "e\u{301}\0\0\0\0",
        "\0\0\0\0e\u{301}",
    ),
    (
        "\0",
        2,
        '\u{10ffff}',
        "\0\u{10ffff}",
        "\0\u{10ffff}",
        "\u{10ffff}\0",
    ),
    (
        "\u{10ffff}b",
        i64::MIN,
        'x',
        "\u{10ffff}b",
        "\u{10ffff}b",
        "\u{10ffff}b",
    ),
    (
        "\u{65e5}\u{672c}",
        5,
        '\u{301}',
        "\u{301}\u{301}\u{65e5}\u{672c}\u{301}",
        "\u{65e5}\u{672c}\u{301}\u{301}\u{301}",
        "\u{301}\u{301}\u{301}\u{65e5}\u{672c}",
    ),
];

/// A text and a width, and Python's `t.zfill(w)`.
const ZERO_FILLED: [(&str, i64, &str); 12] = [
    ("-5", 4, "-005"),
    ("ab", 4, "00ab"),
    ("+", 3, "+00"),
    ("--1", 6, "-000-1"),
    ("\u{2212}5", 4, "00\u{2212}5"),
    ("", 2, "00"),
    ("5-", 4, "005-"),
    ("\0\u{e9}", 5, "000\0\u{e9}"),
    ("+\u{10ffff}", 4, "+00\u{10ffff}"),
    ("-12", 3, "-12"),
    ("-12", -9, "-12"),
    ("e\u{301}", 4, "00e\u{301}"),
];

/// A text, and Python's `t.strip()`, `t.lstrip()` and `t.rstrip()`.
const SPACES_STRIPPED: [(&str, [&str; 3]); 6] = [
    (" a ", ["a", "a ", " a"]),
    (
        "\u{3000}\u{2003}\u{e9}\u{a0}\u{2029}\u{1f}",
        [
            "\u{e9}",
            "\u{e9}\u{a0}\u{2029}\u{1f}",
            "\u{3000}\u{2003}\u{e9}",
        ],
    ),
    ("", ["", "", ""]),
    ("\u{9}\u{a} ", ["", "", ""]),
    (
        "\u{200b}x\u{200b}",
        [
            "\u{200b}x\u{200b}",
            "\u{200b}x\u{200b}",
            "\u{200b}x\u{200b}",
        ],
    ),
    (
        "the text that stays is long, and stands between spaces  ",
        [
            "the text that stays is long, and stands between spaces",
            "the text that stays is long, and stands between spaces  ",
            "the text that stays is long, and stands between spaces",
        ],
    ),
];

/// A text and a set, and Python's `t.strip(s)`, `t.lstrip(s)` and `t.rstrip(s)`.
const STRIPPED: [(&str, &str, [&str; 3]); 12] = [
    (
        "a\u{65e5}b \u{e9} c",
        "c\u{65e5}ba ",
        ["\u{e9}", "\u{e9} c", "a\u{65e5}b \u{e9}"],
    ),
    ("xxaxbxx", "x", ["axb", "axbxx", "xxaxb"]),
    (" a ", "", [" a ", " a ", " a "]),
    (
        "\u{e9}a\u{e9}\u{20ac}",
        "\u{20ac}\u{e9}",
        ["a", "a\u{e9}\u{20ac}", "\u{e9}a"],
    ),
    ("e\u{301}", "\u{301}", ["e", "e\u{301}", "e"]),
    (
        "\u{301}e\u{301}e",
        "e",
        ["\u{301}e\u{301}", "\u{301}e\u{301}e", "\u{301}e\u{301}"],
    ),
    ("\0a\0", "\0", ["a", "a\0", "\0a"]),
    (
        "\u{10ffff}\u{1f600}\u{10ffff}",
        "\u{10ffff}",
        ["\u{1f600}", "\u{1f600}\u{10ffff}", "\u{10ffff}\u{1f600}"],
    ),
    ("aaa", "a", ["", "", ""]),
    ("abcab", "bac", ["", "", ""]),
    ("x y", " xy z", ["", "", ""]),
    (
        "\u{65e5}\u{672c}\u{8a9e}\u{65e5}\u{672c}",
        "\u{672c}\u{65e5}",
        [
            "\u{8a9e}",
            "\u{8a9e}\u{65e5}\u{672c}",
            "\u{65e5}\u{672c}\u{8a9e}",
        ],
    ),
];

/// A text and a count, and Python's `t * n`.
const REPEATED: [(&str, i64, &str); 9] = [
    ("\u{e9}", 3, "\u{e9}\u{e9}\u{e9}"),
    ("ab", 0, ""),
    ("ab", -1, ""),
    ("", 9, ""),
    ("a\u{301}", 2, "a\u{301}a\u{301}"),
    ("\0", 4, "\0\0\0\0"),
    (
        "\u{10ffff}",
        5,
        "\u{10ffff}\u{10ffff}\u{10ffff}\u{10ffff}\u{10ffff}",
    ),
    ("\u{65e5}\u{672c}", 1, "\u{65e5}\u{672c}"),
    ("x", i64::MIN, ""),
];

/// Two texts, and Python's `a + b`.
const JOINED: [(&str, &str, &str); 7] = [
    ("", "", ""),
    ("a", "", "a"),
    ("", "\u{e9}", "\u{e9}"),
    ("\u{e9}", "\u{301}", "\u{e9}\u{301}"),
    ("\0", "\u{10ffff}", "\0\u{10ffff}"),
    (
        "\u{65e5}\u{672c}",
        "\u{8a9e}\u{1f600} and more",
        "\u{65e5}\u{672c}\u{8a9e}\u{1f600} and more",
    ),
    ("x", "y", "xy"),
];

#[test]
fn texts_are_justified_as_python_does(rt: HostRuntime) -> Result<(), Fail> {
    let alloc = rt.alloc();
    for (text, width, fill, middle, left, right) in JUSTIFIED {
        let a = Text::from_bytes(alloc, text.as_bytes())?;
        let centered = center(alloc, &a, width, fill)?;
        assert!(rt;
            centered.as_bytes() == middle.as_bytes(),
            "center {text:?} {width}"
        );
        assert!(rt;
            ljust(alloc, &a, width, fill)?.as_bytes() == left.as_bytes(),
            "ljust {text:?} {width}"
        );
        assert!(rt;
            rjust(alloc, &a, width, fill)?.as_bytes() == right.as_bytes(),
            "rjust {text:?} {width}"
        );
    }
    Ok(())
}

#[test]
fn zeros_are_filled_in_as_python_does(rt: HostRuntime) -> Result<(), Fail> {
    let alloc = rt.alloc();
    for (text, width, wanted) in ZERO_FILLED {
        let a = Text::from_bytes(alloc, text.as_bytes())?;
        assert!(rt;
            zfill(alloc, &a, width)?.as_bytes() == wanted.as_bytes(),
            "zfill {text:?} {width}"
        );
    }
    Ok(())
}

/// A text without what is in a set at both ends, at its start and at its end.
fn try_strips(
    rt: &impl Abort,
    alloc: Global,
    text: &str,
    set: Option<&Text>,
    wanted: [&str; 3],
) -> Result<(), Fail> {
    let a = Text::from_bytes(alloc, text.as_bytes())?;
    let made = [
        strip(alloc, &a, set)?,
        lstrip(alloc, &a, set)?,
        rstrip(alloc, &a, set)?,
    ];
    for (made, wanted) in made.iter().zip(wanted.iter()) {
        assert!(rt; made.as_bytes() == wanted.as_bytes(), "of {text:?}");
    }
    Ok(())
}

#[test]
fn texts_are_stripped_as_python_does(rt: HostRuntime) -> Result<(), Fail> {
    let alloc = rt.alloc();
    for (text, wanted) in SPACES_STRIPPED {
        try_strips(&rt, alloc, text, None, wanted)?;
    }
    for (text, set, wanted) in STRIPPED {
        let set = Text::from_bytes(alloc, set.as_bytes())?;
        try_strips(&rt, alloc, text, Some(&set), wanted)?;
    }
    Ok(())
}

#[test]
fn texts_are_joined_and_repeated_as_python_does(rt: HostRuntime) -> Result<(), Fail> {
    let alloc = rt.alloc();
    for (text, count, wanted) in REPEATED {
        let a = Text::from_bytes(alloc, text.as_bytes())?;
        assert!(rt;
            multiply(alloc, &a, count)?.as_bytes() == wanted.as_bytes(),
            "{count} times {text:?}"
        );
    }
    for (first, second, wanted) in JOINED {
        let sum = add(
            alloc,
            &Text::from_bytes(alloc, first.as_bytes())?,
            &Text::from_bytes(alloc, second.as_bytes())?,
        )?;
        assert!(rt;
            sum.as_bytes() == wanted.as_bytes(),
            "{first:?} and {second:?}"
        );
    }
    Ok(())
}

/// How many bytes a text has; none where it is too long.
fn size_of(made: Result<Text, EditError>) -> Option<usize> {
    match made {
        Ok(text) => Some(text.size()),
        Err(_) => None,
    }
}

/// 65,536 bytes are a text, and 65,537 are too long.
#[test]
fn the_longest_text_has_65536_bytes(rt: HostRuntime) -> Result<(), Fail> {
    let alloc = rt.alloc();
    let one = Text::from_bytes(alloc, "-".as_bytes())?;
    for (width, size) in [
        (65_535, Some(65_535)),
        (65_536, Some(65_536)),
        (65_537, None),
        (i64::MAX, None),
    ] {
        assert_eq!(rt;
            size_of(multiply(alloc, &one, width)),
            size,
            "multiply {width}"
        );
        assert_eq!(rt;
            size_of(center(alloc, &one, width, 'x')),
            size,
            "center {width}"
        );
        assert_eq!(rt; size_of(zfill(alloc, &one, width)), size, "zfill {width}");
    }
    Ok(())
}

/// A width counts code points, and the limit counts bytes: four times 16,383 and one more are 65,533.
#[test]
fn the_limit_counts_bytes(rt: HostRuntime) -> Result<(), Fail> {
    let alloc = rt.alloc();
    let one = Text::from_bytes(alloc, "x".as_bytes())?;
    for (width, size) in [(16_384, Some(65_533)), (16_385, None), (i64::MAX, None)] {
        assert_eq!(rt;
            size_of(rjust(alloc, &one, width, '\u{10ffff}')),
            size,
            "rjust {width}"
        );
        assert_eq!(rt;
            size_of(ljust(alloc, &one, width, '\u{10ffff}')),
            size,
            "ljust {width}"
        );
    }
    Ok(())
}

#[test]
fn a_sum_of_65536_bytes_is_a_text(rt: HostRuntime) -> Result<(), Fail> {
    let alloc = rt.alloc();
    let most = Text::from_bytes(alloc, vec![in alloc; b'x'; 65_535]?.as_slice())?;
    for (text, size) in [("x", Some(65_536)), ("\u{e9}", None)] {
        let text = Text::from_bytes(alloc, text.as_bytes())?;
        assert_eq!(rt; size_of(add(alloc, &most, &text)), size);
    }
    Ok(())
}
