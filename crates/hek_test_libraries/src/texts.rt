//! Numbers, words and lines of texts.
use crate::asserts::{holds, is_at};
use hek_rules::{next_line, next_word, number, same_bytes};

#[test]
fn reads_numbers(rt: HostRuntime) {
    for (text, value) in [
        ("0", Some(0)),
        ("00000000000000000012", Some(12)),
        ("18446744073709551615", Some(u64::MAX)),
        ("18446744073709551616", None),
        ("99999999999999999999", None),
        ("000000000000000000001", None),
        ("", None),
        ("+1", None),
        ("1 ", None),
        ("a", None),
    ] {
        is_at(&rt, text, number(text.as_bytes()), value);
    }
}

#[test]
fn cuts_lines_and_words(rt: HostRuntime) {
    for (text, line) in [
        ("a b\n\nc", Some(("a b", "\nc"))),
        ("\nc", Some(("", "c"))),
        ("c", Some(("c", ""))),
        ("c\n", Some(("c", ""))),
        ("", None),
    ] {
        let wanted = line.map(|(line, rest)| (line.as_bytes(), rest.as_bytes()));
        is_at(&rt, text, next_line(text.as_bytes()), wanted);
    }
    for (text, word) in [
        (" \trow 10\r", Some(("row", " 10\r"))),
        (" 10\r", Some(("10", "\r"))),
        ("a#b c", Some(("a", "#b c"))),
        ("\r", None),
        ("", None),
        ("#b c", None),
        (" # b", None),
    ] {
        let wanted = word.map(|(word, rest)| (word.as_bytes(), rest.as_bytes()));
        is_at(&rt, text, next_word(text.as_bytes()), wanted);
    }
}

#[test]
fn compares_bytes(rt: HostRuntime) {
    holds(&rt, same_bytes(b"read", b"read") && same_bytes(b"", b""));
    holds(
        &rt,
        !same_bytes(b"read", b"rear") && !same_bytes(b"read", b"reads"),
    );
    holds(&rt, !same_bytes(b"reads", b"read"));
}
