//! Bytes that aren't UTF-8, and their neighbours that are.

/// The first and last characters of each length, and those round the gap of the surrogates.
pub static WHOLE: &[(&str, &str)] = &[
    ("\u{80}", "Word 1:1 0..2;"),
    ("\u{7ff}", "Word 1:1 0..2;"),
    ("\u{800}", "Word 1:1 0..3;"),
    ("\u{d7ff}", "Word 1:1 0..3;"),
    ("\u{e000}", "Word 1:1 0..3;"),
    ("\u{ffff}", "Word 1:1 0..3;"),
    ("\u{10000}", "Word 1:1 0..4;"),
    ("\u{10ffff}", "Word 1:1 0..4;"),
];

/// Bytes, and how many at their front are UTF-8.
pub static BROKEN: &[(&[u8], u64)] = &[
    // a character that is cut, and one that another begins inside
    (b"a\xc3", 1),
    (b"a\xe6\xbc", 1),
    (b"a\xf0\x9d\x94", 1),
    (b"a\xf0\x9d\x94a", 1),
    // a byte that goes on where none should
    (b"\x80", 0),
    (b"\xe6\xbc\xa2\xa2", 3),
    // more bytes than the character needs, a surrogate, and what is above U+10FFFF
    (b"\xc1\xbf", 0),
    (b"\xed\xa0\x80", 0),
    (b"\xf4\x90\x80\x80", 0),
    // inside tokens and annotations, on a later line, and behind a token that can't be read
    (b"\"\xe4\"", 1),
    (b"(*\xff*)", 2),
    (b"\xc3\xa4\n \xe6\xbc\xa2\n\x80", 8),
    (b"%\xff", 1),
];
