use crate::{
    cut_line, first, is_skipped, is_word, next_token, number_of, plain_at, push_decimal,
    push_quoted, quoted_at,
};
use std::alloc::Global;
use std::test::Fail;

#[test]
fn lines(rt: HostRuntime) -> Result<(), Fail> {
    for (text, line, rest) in [
        ("a\r\nb\n", "a", "b\n"),
        ("end\r", "end\r", ""),
        ("\r\r\n", "\r", ""),
        ("\r\n", "", ""),
        ("\n", "", ""),
        ("\n\r\n", "", "\r\n"),
        ("a\rb\nc", "a\rb", "c"),
        ("last", "last", ""),
    ] {
        assert!(rt; !text.is_empty());
        let (cut, others) = cut_line(text.as_bytes());
        assert_eq!(rt; cut, line.as_bytes(), "of {text:?}");
        assert_eq!(rt; others, rest.as_bytes(), "behind {text:?}");
    }
    for (line, skipped) in [
        ("", true),
        (" \t ", true),
        ("# a", true),
        ("\t#", true),
        (" a # b", false),
        ("\r", false),
    ] {
        assert_eq!(rt; is_skipped(line.as_bytes()), skipped, "of {line:?}");
    }
    Ok(())
}

#[test]
fn tokens(rt: HostRuntime) -> Result<(), Fail> {
    for (line, tokens) in [
        ("", [].as_slice()),
        (" \t", &[]),
        ("\tset  a\t1 ", &["set", "a", "1"]),
        ("\"a b\" c", &["\"a b\"", "c"]),
        ("[\"a b\",\"\tc\"] d", &["[\"a b\",\"\tc\"]", "d"]),
        ("\"a\\\" b\" c", &["\"a\\\" b\"", "c"]),
        ("\"a\\\\\" b", &["\"a\\\\\"", "b"]),
        ("a \"b c", &["a", "\"b c"]),
        ("a\\ b", &["a\\", "b"]),
    ] {
        let mut rest = line.as_bytes();
        for token in tokens {
            let (cut, others) = next_token(rest).unwrap_or((b"none", b""));
            assert!(rt; is_word(token.as_bytes(), cut), "{token:?} of {line:?}");
            rest = others;
        }
        assert!(rt; next_token(rest).is_none(), "behind {line:?}");
    }
    Ok(())
}

#[test]
fn texts(rt: HostRuntime) -> Result<(), Fail> {
    let alloc = rt.alloc();
    let mut out = vec![in alloc; b'x'; 3]?;
    for (written, text, rest) in [
        (r#""""#, "", ""),
        (r#""a b" c"#, "a b", " c"),
        (r#""\"\\""#, "\"\\", ""),
        (r#""é\u{e9}\u{10ffff}""x""#, "éé\u{10ffff}", "\"x\""),
        (r#""\u{0}\u{00001f}\u{7f}""#, "\u{0}\u{1f}\u{7f}", ""),
        (r#""\u{d7ff}\u{e000}""#, "\u{d7ff}\u{e000}", ""),
    ] {
        let past = quoted_at(&mut out, written.as_bytes())?;
        assert!(rt; past == Some(rest.as_bytes()), "behind {written}");
        assert_eq!(rt; out.as_slice(), text.as_bytes(), "of {written}");
    }
    for written in [
        "",
        "a",
        "\"a",
        "\"a\\\"",
        "\"\\n\"",
        "\"\t\"",
        "\"\u{1f}\"",
        r#""\u{110000}""#,
        r#""\u{d800}""#,
        r#""\u{dfff}""#,
        r#""\u{}""#,
        r#""\u{0000041}""#,
        r#""\u{A}""#,
        r#""\u{41""#,
        r#""\u41""#,
    ] {
        assert!(rt;
            quoted_at(&mut out, written.as_bytes())?.is_none(),
            "of {written}"
        );
    }
    Ok(())
}

#[test]
fn written(rt: HostRuntime) -> Result<(), Fail> {
    let alloc = rt.alloc();
    for (text, quoted) in [
        ("", r#""""#),
        ("a b", r#""a b""#),
        ("\"\\", r#""\"\\""#),
        ("\u{0}\n\u{f}", r#""\u{0}\u{a}\u{f}""#),
        ("\u{10}\u{1f}\u{7f}", r#""\u{10}\u{1f}\u{7f}""#),
        ("~é\u{80}\u{10ffff}", "\"~é\u{80}\u{10ffff}\""),
    ] {
        let mut out = vec![in alloc; b'>'; 1]?;
        push_quoted(&mut out, text.as_bytes())?;
        assert!(rt;
            first(&out) == Some((b'>', quoted.as_bytes())),
            "of {text:?}"
        );
    }
    for (number, decimal) in [(0, "0"), (10, "10"), (u64::MAX, "18446744073709551615")] {
        let mut out = vec![in alloc; b'>'; 1]?;
        push_decimal(&mut out, number)?;
        assert!(rt;
            first(&out) == Some((b'>', decimal.as_bytes())),
            "of {number}"
        );
    }
    Ok(())
}

#[test]
fn numbers(rt: HostRuntime) -> Result<(), Fail> {
    for (text, number) in [
        ("0", Some(Some(0))),
        ("-0", Some(Some(0))),
        ("007", Some(Some(7))),
        ("-12", Some(Some(-12))),
        ("9223372036854775807", Some(Some(i64::MAX))),
        ("-9223372036854775808", Some(Some(i64::MIN))),
        ("9223372036854775808", Some(None)),
        ("-9223372036854775809", Some(None)),
        ("18446744073709551616", Some(None)),
        ("-18446744073709551617", Some(None)),
        ("", None),
        ("-", None),
        ("--1", None),
        ("+1", None),
        ("1a", None),
        ("99999999999999999999a", None),
    ] {
        assert_eq!(rt; number_of(text.as_bytes()), number, "of {text:?}");
    }
    Ok(())
}

/// A quotation mark, so many bytes `x`, and these behind them.
fn long(alloc: Global, size: usize, behind: &[u8]) -> Result<Vec<u8>, Fail> {
    let mut bytes = vec![in alloc; b'x'; size]?;
    bytes.insert(0, b'"')?;
    bytes.extend_from_slice(behind)?;
    Ok(bytes)
}

/// Lengths of runs on both sides of each vector's, and of the longest text.
const SIZES: &[usize] = &[0, 1, 7, 8, 15, 16, 31, 32, 33, 64, 65, 100, 65_536];

#[test]
fn long_texts(rt: HostRuntime) -> Result<(), Fail> {
    let alloc = rt.alloc();
    let mut out = Vec::new(alloc);
    for size in SIZES {
        let bytes = long(alloc, *size, b"\" y")?;
        let past = quoted_at(&mut out, &bytes)?;
        assert!(rt; past == Some(b" y".as_slice()), "behind {size}");
        assert_eq!(rt; out.len(), *size);
        let (token, rest) = next_token(&bytes).ok_or("no token")?;
        assert_eq!(rt; token.len(), *size + 2);
        assert_eq!(rt; rest, b" y".as_slice(), "behind {size}");
        let (text, count, rest) = plain_at(&bytes).ok_or("no text")?;
        assert_eq!(rt; count, *size);
        assert!(rt; text.len() > count, "{size}");
        assert_eq!(rt; rest, b" y".as_slice(), "behind {size}");
    }
    Ok(())
}

#[test]
fn long_runs_before_an_escape(rt: HostRuntime) -> Result<(), Fail> {
    let alloc = rt.alloc();
    let mut out = Vec::new(alloc);
    for size in SIZES {
        let bytes = long(alloc, *size, b"\\\" \\u{0000e9}z\" y")?;
        let past = quoted_at(&mut out, &bytes)?;
        assert!(rt; past == Some(b" y".as_slice()), "behind {size}");
        let tail = out.get(*size..).ok_or("a short text")?;
        assert_eq!(rt; tail, "\" éz".as_bytes(), "of {size}");
        assert!(rt; plain_at(&bytes).is_none(), "of {size}");
        let (_, rest) = next_token(&bytes).ok_or("no token")?;
        assert_eq!(rt; rest, b" y".as_slice(), "behind {size}");
    }
    Ok(())
}

#[test]
fn long_runs_that_are_no_text(rt: HostRuntime) -> Result<(), Fail> {
    let alloc = rt.alloc();
    let mut out = Vec::new(alloc);
    for size in SIZES {
        for behind in [b"\x1f\"".as_slice(), b"\\n\"", b"\\", b""] {
            let bytes = long(alloc, *size, behind)?;
            assert!(rt; quoted_at(&mut out, &bytes)?.is_none(), "of {size}");
            assert!(rt; plain_at(&bytes).is_none(), "of {size}");
        }
    }
    for bytes in [b"".as_slice(), b"x", b"x\"", b"na"] {
        assert!(rt; plain_at(bytes).is_none(), "of {bytes:?}");
    }
    Ok(())
}

#[test]
fn long_texts_written(rt: HostRuntime) -> Result<(), Fail> {
    let alloc = rt.alloc();
    for size in SIZES {
        let mut out = Vec::new(alloc);
        let text = long(alloc, *size, b"\x7fz")?;
        let text = str::from_utf8(&text)?;
        push_quoted(&mut out, text.as_bytes())?;
        let want = long(alloc, *size, b"\\u{7f}z\"")?;
        assert!(rt; out.starts_with(b"\"\\\""), "of {size}");
        let tail = out.get(3..).ok_or("a short text")?;
        assert!(rt; Some(tail) == want.get(1..), "of {size}");
    }
    Ok(())
}
