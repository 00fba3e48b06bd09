//! Concatenation, length and parts of strings. Characters of two to four bytes stand among them.
use crate::values::strings;
use rif_builtins::{apply_func, holds};
use rif_tree::{Func, Pred};
use rif_values::{Const, Integer, OutOfMemory, Text};
use std::alloc::Global;
use std::test::Fail;

/// Strings, and their concatenation.
static CONCATENATIONS: &[(&[&str], &str)] = &[
    (&["", ""], ""),
    (&["a", ""], "a"),
    (&["", "b"], "b"),
    (&["a", "b"], "ab"),
    (&["é", "€", "😀"], "é€😀"),
    (
        &[
            "a", "b", "c", "d", "e", "f", "g", "h", "i", "j", "k", "l", "m", "n", "o", "p",
        ],
        "abcdefghijklmnop",
    ),
];

#[test]
fn strings_are_joined(rt: HostRuntime) -> Result<(), Fail> {
    let alloc = rt.alloc();
    for (texts, wanted) in CONCATENATIONS {
        let arguments = strings(alloc, texts)?;
        let found = apply_func(alloc, Func::Concat, arguments.as_slice())?;
        assert_eq!(rt;
            found,
            Some(Const::Str(Text::from_str(alloc, wanted)?)),
            "{wanted}"
        );
    }
    Ok(())
}

/// A character, how often two strings have it, and how many characters their concatenation has.
static LONG: &[(&str, usize, usize, Option<Integer>)] = &[
    ("a", 32_768, 32_768, Some(65_536)),
    ("a", 65_536, 0, Some(65_536)),
    ("a", 65_536, 1, None),
    ("a", 1, 65_536, None),
    ("a", 70_000, 0, None),
    ("é", 16_384, 16_384, Some(32_768)),
    ("é", 16_384, 16_385, None),
    ("😀", 16_384, 0, Some(16_384)),
    ("😀", 16_384, 1, None),
];

#[test]
fn no_concatenation_is_too_long(rt: HostRuntime) -> Result<(), Fail> {
    let alloc = rt.alloc();
    for (character, one, other, wanted) in LONG {
        let arguments = [
            repeated(alloc, character, *one)?,
            repeated(alloc, character, *other)?,
        ];
        let found = match apply_func(alloc, Func::Concat, &arguments)? {
            Some(text) => apply_func(alloc, Func::StringLength, &[text])?,
            None => None,
        };
        let wanted = wanted.map(|count| Const::Int(count));
        assert_eq!(rt; found, wanted, "{character} {one} {other}");
    }
    Ok(())
}

fn repeated(alloc: Global, character: &str, count: usize) -> Result<Const, OutOfMemory> {
    let mut text = String::new(alloc);
    for _ in 0..count {
        text.push_str(character)?;
    }
    Ok(Const::Str(Text::from_string(text)?))
}

/// A string, and how many characters it has.
static LENGTHS: &[(&str, Integer)] = &[
    ("", 0),
    ("a", 1),
    ("é", 1),
    ("€", 1),
    ("😀", 1),
    ("aé€😀", 4),
    ("e\u{301}", 2),
    ("a b\n\"", 5),
];

#[test]
fn strings_have_their_lengths(rt: HostRuntime) -> Result<(), Fail> {
    let alloc = rt.alloc();
    for (text, wanted) in LENGTHS {
        let arguments = strings(alloc, &[*text])?;
        let found = apply_func(alloc, Func::StringLength, arguments.as_slice())?;
        assert_eq!(rt; found, Some(Const::Int(*wanted)), "{text}");
    }
    Ok(())
}

/// A string, another, and whether the first starts with it, ends with it and contains it.
static PARTS: &[(&str, &str, bool, bool, bool)] = &[
    ("", "", true, true, true),
    ("a", "", true, true, true),
    ("", "a", false, false, false),
    ("abc", "abc", true, true, true),
    ("abc", "ab", true, false, true),
    ("abc", "bc", false, true, true),
    ("abc", "b", false, false, true),
    ("abc", "ac", false, false, false),
    ("abc", "abcd", false, false, false),
    ("aab", "ab", false, true, true),
    ("abab", "ab", true, true, true),
    ("Abc", "a", false, false, false),
    ("é€😀", "é", true, false, true),
    ("é€😀", "€", false, false, true),
    ("é€😀", "😀", false, true, true),
    ("é", "è", false, false, false),
    ("😀", "😁", false, false, false),
];

#[test]
fn parts_are_found(rt: HostRuntime) -> Result<(), Fail> {
    let alloc = rt.alloc();
    for (text, part, starts, ends, contains) in PARTS {
        let arguments = strings(alloc, &[*text, *part])?;
        let given = arguments.as_slice();
        assert_eq!(rt;
            holds(Pred::StartsWith, given),
            Some(*starts),
            "{text} {part}"
        );
        assert_eq!(rt; holds(Pred::EndsWith, given), Some(*ends), "{text} {part}");
        assert_eq!(rt;
            holds(Pred::Contains, given),
            Some(*contains),
            "{text} {part}"
        );
    }
    Ok(())
}
