//! Refusals in words, beside those of docs/REFUSALS.md: what was found, and what could stand there.
use crate::{explain, explain_line};
use refusal_lines::{Explanation, Place, lines_of};
use rif_lex::tokens;
use rif_refusals::Refusal;
use std::alloc::Global;
use std::process::Abort;
use std::test::Fail;

/// A column of a document where something else is expected, the words behind the refusal, and what is said beside.
static EXPECTED: &[(u64, &str, &str, &str)] = &[
    (
        36,
        "Document(Group(Do(Assert(_o[_p -> 1)))))",
        "found `)`, expected a pair or `]`",
        "line 1, column 28: this bracket isn't closed",
    ),
    (
        31,
        "Document(Group(Do(Assert(_p(1)]))))",
        "found `]`, expected `)`",
        "line 1, column 25: this bracket isn't closed",
    ),
    (
        24,
        "Document(Group(If _a() \"five\"^^xs:integer Do(Assert(_b()))))",
        "found `\"five\"`, expected `Then`",
        "",
    ),
    (
        12,
        "Document() <http://example.org/name/of/more/than/forty>",
        "found `<http://example.org/name/of/more/than/fo..`, expected the end of the document",
        "",
    ),
    (
        32,
        "Document(Group(Do((?ä _o[_s -> ?é]) Assert(_p(?ä)))))",
        "found `?é`, expected the variable ?ä",
        "",
    ),
    (
        16,
        "Document(Group(forall ?x (If _p(?x) Then Do(Assert(_q(?x))))))",
        "found `forall`, expected a rule, `Group` or `)`",
        "did you mean `Forall`?",
    ),
    (
        94,
        "Document(Group(Forall ?x (If ?x = \
         <http://www.w3.org/2007/rif-builtin-function#string-length>(\"a\") Then Do(Assert(_q(?x))))))",
        "found `(`, expected `Then`",
        "a built-in's call is written \
         External(<http://www.w3.org/2007/rif-builtin-function#string-length>(..))",
    ),
    (
        37,
        "Document(Group(Forall ?x (If _p(_add(?x 1)) Then Do(Assert(_q(?x))))))",
        "found `(`, expected a term or `)`",
        "",
    ),
];

/// The same where a built-in has another number of arguments.
static ARITIES: &[(u64, &str, &str, &str)] = &[
    (
        123,
        "Document(Group(Forall ?x (If And(_p(?x) External(pred:is-literal-integer(?x \
         External(func:numeric-add(1 2)) \"a\"^^xs:string))) Then Do(Assert(_q(?x))))))",
        "`pred:is-literal-integer` takes 1 argument, found 3",
        "",
    ),
    (
        103,
        "Document(Group(Forall ?x (If And(_p(?x) \
         External(<http://www.w3.org/2007/rif-builtin-function#concat>()) = 1) Then Do(Assert(_q(?x))))))",
        "`<http://www.w3.org/2007/rif-builtin-function#concat>` takes 2 to 16 arguments, found 0",
        "",
    ),
];

/// The same where there is no such built-in.
static BUILTINS: &[(u64, &str, &str, &str)] = &[
    (
        50,
        "Document(Group(Forall ?x (If And(_p(?x) \
         External(<http://www.w3.org/2007/rif-builtin-function#contains>(?x \"a\"))) Then Do(Assert(_q(?x))))))",
        "found `<http://www.w3.org/2007/rif-builtin-func..`",
        "did you mean `pred:contains`?",
    ),
    (
        63,
        "Document(Prefix(func <http://a/>) Group(Do(Assert(_p(External(func:numeric-add(1 2)))))))",
        "found `func:numeric-add`",
        "",
    ),
];

#[test]
fn what_could_stand_there_is_named(rt: HostRuntime) -> Result<(), Fail> {
    let line = 1;
    for (col, document, words, beside) in EXPECTED {
        let refusal = Refusal::Expected { line, col: *col };
        compare(&rt, rt.alloc(), document, &refusal, words, beside)?;
    }
    for (col, document, words, beside) in ARITIES {
        let refusal = Refusal::Arity { line, col: *col };
        compare(&rt, rt.alloc(), document, &refusal, words, beside)?;
    }
    for (col, document, words, beside) in BUILTINS {
        let refusal = Refusal::UnknownBuiltin { line, col: *col };
        compare(&rt, rt.alloc(), document, &refusal, words, beside)?;
    }
    Ok(())
}

// Asserts that these words stand behind the refusal's own text, and what is said beside.
fn compare(
    rt: &impl Abort,
    alloc: Global,
    document: &str,
    refusal: &Refusal,
    words: &str,
    beside: &str,
) -> Result<(), Fail> {
    let bytes = document.as_bytes();
    let found = tokens(alloc, bytes)?;
    let explanation = explain(alloc, found.as_slice(), bytes, refusal)?;
    let first = first_line(alloc, bytes, &explanation)?;
    let wanted = format!(in alloc; "{refusal}: {words}")?;
    assert_eq!(rt; first.as_str(), wanted.as_str());
    let said = said_beside(alloc, &explanation)?;
    assert_eq!(rt; said.as_str(), beside);
    Ok(())
}

// The first of the lines that are printed.
fn first_line(alloc: Global, bytes: &[u8], explanation: &Explanation) -> Result<String, Fail> {
    let lines = lines_of(alloc, bytes, explanation)?;
    let end = lines.as_slice().iter().position(|byte| *byte == b'\n');
    let first = &lines.as_slice()[..end.unwrap_or(lines.len())];
    Ok(String::from_utf8(first.to_vec(alloc)?)?)
}

// The first related place with its words, or the hint.
fn said_beside(alloc: Global, explanation: &Explanation) -> Result<String, Fail> {
    match (explanation.related.as_slice().first(), &explanation.hint) {
        (Some(related), _) => {
            let words = str::from_utf8(related.words.as_slice())?;
            let Place { line, col, .. } = related.place;
            Ok(format!(in alloc; "line {line}, column {col}: {words}")?)
        }
        (None, Some(hint)) => Ok(String::from_str(alloc, str::from_utf8(hint.as_slice())?)?),
        (None, None) => Ok(String::new(alloc)),
    }
}

/// What stands at column 3 of line 2 and can't be read, and what it is called.
static UNREADABLE: &[(&str, &str)] = &[
    ("-007 ", "a number with a leading zero"),
    ("5a]", "`5a`"),
    ("0x1f)", "`0x1f`"),
    ("% b", "`%`"),
    ("%(a", "`%`"),
    ("\0", "a control character"),
    ("(* a", "an annotation that isn't closed"),
    ("\"a\\\" b\n\"", "a string that isn't closed"),
    ("\"a\\q\"", "a string with an escape that there isn't"),
];

#[test]
fn what_cannot_be_read_is_named(rt: HostRuntime) -> Result<(), Fail> {
    let alloc = rt.alloc();
    let refusal = Refusal::BadToken { line: 2, col: 3 };
    for (rest, words) in UNREADABLE {
        let input = format!(in alloc; "a\né {rest}")?;
        let explanation = explain_line(alloc, input.as_bytes(), &refusal)?;
        let first = first_line(alloc, input.as_bytes(), &explanation)?;
        let wanted = format!(in alloc; "{refusal}: found {words}")?;
        assert_eq!(rt; first.as_str(), wanted.as_str());
    }
    Ok(())
}
