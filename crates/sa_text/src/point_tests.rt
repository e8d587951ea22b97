ghost use Rattle.std.specs.Prelude.{◌<◌, ◌≤◌, length};

use crate::{EditError, Text, TextBuilder, first_point, is_space, last_point, offset_of};
use std::alloc::Global;
use std::process::Abort;
use std::test::Fail;

/// A text, its code points and the byte where each begins, with the end: Python's `[ord(c) for c in t]`
/// and `len(t[:k].encode())`.
static ROWS: [(&str, &[u32], &[u32]); 8] = [
    ("", &[], &[0]),
    ("a", &[97], &[0, 1]),
    (
        "a\u{e9}\u{20ac}\u{1f600}",
        &[97, 233, 8364, 128512],
        &[0, 1, 3, 6, 10],
    ),
    ("e\u{301}", &[101, 769], &[0, 1, 3]),
    ("\u{0}", &[0], &[0, 1]),
    ("\u{10ffff}", &[1114111], &[0, 4]),
    (
        "\u{0}e\u{301}\u{10ffff}\u{20ac}\u{df}",
        &[0, 101, 769, 1114111, 8364, 223],
        &[0, 1, 2, 4, 8, 11, 13],
    ),
    (
        "tab\tn\u{e9} \u{65e5}\u{672c}\u{8a9e}",
        &[116, 97, 98, 9, 110, 233, 32, 26085, 26412, 35486],
        &[0, 1, 2, 3, 4, 5, 7, 8, 11, 14, 17],
    ),
];

/// The code points of which Python's `chr(n).isspace()` is true.
const SPACES: [u32; 29] = [
    0x9, 0xa, 0xb, 0xc, 0xd, 0x1c, 0x1d, 0x1e, 0x1f, 0x20, 0x85, 0xa0, 0x1680, 0x2000, 0x2001,
    0x2002, 0x2003, 0x2004, 0x2005, 0x2006, 0x2007, 0x2008, 0x2009, 0x200a, 0x2028, 0x2029, 0x202f,
    0x205f, 0x3000,
];

/// Each place of a text as the row says: `begins` is where the code points begin, and the end.
fn try_places(rt: &impl Abort, text: &Text, points: &[u32], begins: &[u32]) {
    assert_eq!(rt; text.count_points() as usize, points.len());
    assert!(rt; points.len() < 100);
    assert_eq!(rt; text.byte_of_point(points.len() as u32 + 1), None);
    assert_eq!(rt; offset_of(text.as_bytes(), u32::MAX), None);
    for (k, at) in begins.iter().enumerate() {
        assert!(rt; k < 100);
        assert_eq!(rt; text.byte_of_point(k as u32), Some(*at), "place {k}");
        try_place(rt, text, k as u32, *at);
        if let (Some(point), Some(after)) = (points.get(k), begins.get(k + 1)) {
            try_point(rt, text, *at, *point, *after);
        }
    }
}

/// The code point at place `k` begins at byte `at`, or the text ends there.
fn try_place(rt: &impl Abort, text: &Text, k: u32, at: u32) {
    assert!(rt; at as usize <= text.size());
    assert_eq!(rt; text.points_before(at), k, "byte {at}");
    assert!(rt; text.is_char_boundary(at), "byte {at}");
}

/// The code point that begins at byte `at`, and within it no other begins.
fn try_point(rt: &impl Abort, text: &Text, at: u32, point: u32, after: u32) {
    assert!(rt; (at as usize) < text.size());
    assert!(rt; text.is_char_boundary(at));
    let (found, end) = text.point_at(at);
    assert_eq!(rt; found as u32, point, "byte {at}");
    assert_eq!(rt; end, after, "byte {at}");
    if at + 1 < after {
        assert!(rt; after as usize <= text.size());
        assert!(rt; !text.is_char_boundary(at + 1), "byte {at}");
    }
}

#[test]
fn places_are_those_of_python(rt: HostRuntime) -> Result<(), Fail> {
    for (text, points, begins) in &ROWS {
        let text = Text::from_bytes(rt.alloc(), text.as_bytes())?;
        try_places(&rt, &text, points, begins);
        try_ends(&rt, &text, points);
    }
    Ok(())
}

/// The code points of a text from its start on and from its end on, one by one.
fn try_ends(rt: &impl Abort, text: &Text, points: &[u32]) {
    let mut rest = text.as_bytes();
    for point in points {
        let Some((first, behind)) = first_point(rest) else {
            panic!(rt; "too few code points");
        };
        assert_eq!(rt; first as u32, *point);
        rest = behind;
    }
    assert!(rt; rest.is_empty());
    rest = text.as_bytes();
    for point in points.iter().rev() {
        let Some((last, before)) = last_point(rest) else {
            panic!(rt; "too few code points");
        };
        assert_eq!(rt; last as u32, *point);
        rest = before;
    }
    assert!(rt; last_point(rest).is_none());
}

/// A text of a part so many times, put in at once and one by one.
fn repeated(alloc: Global, part: &str, times: usize) -> Result<Text, EditError>
    requires some { 0 < times }
    requires few { times ≤ 65537 }
    requires short { length part.now ≤ 100 }
{
    let part = part.as_bytes();
    let mut text = TextBuilder::new(alloc, part.len() * times)?;
    text.push(part);
    text.repeat(part, times - 1);
    text.finish()
}

/// How many bytes and code points Python's `t * n` has, or that it is too long.
#[test]
fn texts_are_made_of_parts(rt: HostRuntime) -> Result<(), Fail> {
    let rows = [
        ("", 9, Some((0, 0))),
        ("é", 3, Some((6, 3))),
        ("é", 7, Some((14, 7))),
        ("ab\u{301}", 4, Some((16, 12))),
        ("\u{10ffff}", 5, Some((20, 5))),
        ("\0", 65_536, Some((65_536, 65_536))),
        ("日本語", 7_281, Some((65_529, 21_843))),
        ("x", 65_537, None),
        ("é", 32_769, None),
    ];
    for (part, times, wanted) in rows {
        assert!(rt; part.len() <= 100);
        match (repeated(rt.alloc(), part, times), wanted) {
            (Ok(text), Some((size, points))) => {
                assert_eq!(rt; text.size(), size, "{times} times {part:?}");
                assert_eq!(rt; text.count_points(), points);
            }
            (Err(EditError::TooLong), None) => {}
            _ => panic!(rt; "{times} times {part:?}"),
        }
    }
    Ok(())
}

#[test]
fn spaces_are_those_of_python(rt: HostRuntime) {
    for number in 0..0x11_0000 {
        if let Some(point) = char::from_u32(number) {
            assert_eq!(rt;
                is_space(point),
                SPACES.contains(&number),
                "code point {number}"
            );
        }
    }
}
