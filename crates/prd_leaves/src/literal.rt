//! Integers, strings and typed literals by their texts.
ghost use Rattle.std.specs.Prelude.{◌≡◌, ◌==◌, IsUtf8, OnOk, true};
ghost use Rattle.std.specs.List.{list_all, list_any};
ghost use Rattle.std.specs.Str.Parse.{without_leading_sign};
ghost use Rattle.rif_lex.specs.Characters.{begins, class_at, is_between, is_inside_iri, is_name};
ghost use Rattle.prd_leaves.specs.Literals.{are_name_characters, boolean_of, escape_of, integer_of, is_integer_text};
ghost use Rattle.prd_leaves.specs.Literals.{is_iri_text, is_name_text, is_type, literal_of, unescaped};
ghost use Rattle.prd_leaves.specs.LeafWords.{integer_literal};

use prd_grammar::Literal;
use rif_values::{Integer, OutOfMemory, Text};

/// The integer of digits with a sign, and none where it is out of range.
///
/// Linear in the text's length; takes no memory.
///
/// Source: our own (docs/FORMATS.md, "Tokens").
pub(crate) fn integer_of(text: &[u8]) -> Option<Integer>
    requires utf8 { IsUtf8 text.now }
    requires digits { is_integer_text text.now ≡ true }
    ensures { result ≡ integer_of text.now }
{
    match str::from_utf8(text) {
        Ok(digits) => parsed(digits),
        Err(_) => unreachable!(),
    }
}

fn parsed(digits: &str) -> Option<Integer>
    requires { is_integer_text digits.now ≡ true }
    ensures { result ≡ integer_of digits.now }
{
    match digits.parse::<Integer>() {
        Ok(value) => Some(value),
        Err(_) => None,
    }
}

/// Whether a string's text has an escape.
///
/// Linear in the text's length; takes no memory.
pub(crate) fn has_escape(text: &[u8]) -> bool
    ensures { result ≡ list_any (λ b. b == 92) text.now }
{
    text.iter().any(|byte| *byte == b'\\')
}

/// Puts the text of a string, with its escapes undone, into the list, in place of what it has.
///
/// Linear in the text's length; takes memory where the list grows.
///
/// Source: our own (docs/FORMATS.md, "Tokens").
pub(crate) fn unescape(made: &mut Vec<u8>, text: &[u8]) -> Result<(), OutOfMemory>
    ensures { OnOk result (made.new.items ≡ unescaped text.now) }
{
    made.clear();
    let mut escape = false;
    for byte in text {
        if escape {
            made.push(escape_of(*byte))?;
            escape = false;
        } else if *byte == b'\\' {
            escape = true;
        } else {
            made.push(*byte)?;
        }
    }
    Ok(())
}

// The character that an escape's last byte stands for.
fn escape_of(byte: u8) -> u8
    ensures { result ≡ escape_of byte }
{
    match byte {
        b'n' => b'\n',
        b't' => b'\t',
        b'r' => b'\r',
        _ => byte,
    }
}

/// Whether the IRI is that of one of the five types of typed literals.
///
/// Source: RIF-DTB, "Constants and Symbol Spaces".
pub(crate) fn is_type(iri: &[u8]) -> bool
    ensures { result ≡ is_type iri.now }
{
    iri == b"http://www.w3.org/2001/XMLSchema#integer".as_slice()
        || iri == b"http://www.w3.org/2001/XMLSchema#boolean".as_slice()
        || iri == b"http://www.w3.org/2001/XMLSchema#string".as_slice()
        || iri == b"http://www.w3.org/2007/rif#iri".as_slice()
        || iri == b"http://www.w3.org/2007/rif#local".as_slice()
}

/// The text of a typed literal as the type of this IRI reads it, or none where it isn't a spelling of it.
///
/// Linear in the text's length; takes no memory.
///
/// Source: our own (docs/FORMATS.md, "Typed literals").
pub(crate) fn literal_of(iri: &[u8], text: Text) -> Option<Literal>
    ensures { result ≡ literal_of iri.now text }
{
    if iri == b"http://www.w3.org/2001/XMLSchema#integer".as_slice() {
        integer_literal(text)
    } else if iri == b"http://www.w3.org/2001/XMLSchema#boolean".as_slice() {
        boolean_of(text.bytes())
    } else if iri == b"http://www.w3.org/2001/XMLSchema#string".as_slice() {
        Some(Literal::String(text))
    } else if iri == b"http://www.w3.org/2007/rif#iri".as_slice() {
        if is_iri_text(text.bytes()) {
            Some(Literal::Iri(text))
        } else {
            None
        }
    } else if iri == b"http://www.w3.org/2007/rif#local".as_slice() {
        if is_name_text(text.bytes()) {
            Some(Literal::Local(text))
        } else {
            None
        }
    } else {
        Some(Literal::OfNoType)
    }
}

fn integer_literal(text: Text) -> Option<Literal>
    ensures { result ≡ integer_literal text }
{
    let digits = text.as_str().as_bytes();
    if is_integer_text(digits) {
        Some(Literal::Integer(integer_of(digits)))
    } else {
        None
    }
}

fn boolean_of(text: &[u8]) -> Option<Literal>
    ensures { result ≡ boolean_of text.now }
{
    if text == b"true".as_slice() || text == b"1".as_slice() {
        Some(Literal::Boolean(true))
    } else if text == b"false".as_slice() || text == b"0".as_slice() {
        Some(Literal::Boolean(false))
    } else {
        None
    }
}

// Whether the text is digits behind a sign or none.
fn is_integer_text(text: &[u8]) -> bool
    ensures { result ≡ is_integer_text text.now }
{
    let digits = without_sign(text);
    1 <= digits.len() && are_digits(digits)
}

fn without_sign(text: &[u8]) -> &[u8]
    ensures { result.now ≡ without_leading_sign text.now }
{
    match text.split_first() {
        Some((b'+' | b'-', digits)) => digits,
        _ => text,
    }
}

fn are_digits(text: &[u8]) -> bool
    ensures { result ≡ list_all (is_between 48 57) text.now }
{
    text.iter().all(|byte| is_digit(*byte))
}

fn is_digit(byte: u8) -> bool
    ensures { result ≡ is_between 48 57 byte }
{
    48 <= byte && byte <= 57
}

// Whether the text may stand between `<` and `>`.
fn is_iri_text(text: &[u8]) -> bool
    ensures { result ≡ is_iri_text text.now }
{
    text.iter().all(|byte| is_inside_iri(*byte))
}

fn is_inside_iri(byte: u8) -> bool
    ensures { result ≡ is_inside_iri byte }
{
    33 <= byte && !(byte == b'<' || byte == b'>' || byte == b'"')
}

// Whether the text may stand behind a `_`.
fn is_name_text(text: &[u8]) -> bool
    ensures { result ≡ is_name_text text.now }
{
    1 <= text.len() && are_name_characters(text)
}

fn are_name_characters(text: &[u8]) -> bool
    ensures { result ≡ are_name_characters text.now }
{
    for at in 0..text.len() {
        if !is_name(text[at], &text[at + 1..]) {
            return false;
        }
    }
    true
}

// Whether the byte is one of a name character before the rest.
fn is_name(byte: u8, rest: &[u8]) -> bool
    ensures { result ≡ is_name (class_at byte) rest.now }
{
    match byte {
        b'a'..=b'z' | b'A'..=b'Z' | b'0'..=b'9' | b'_' | 128..=255 => true,
        b'-' => !begins_greater(rest),
        _ => false,
    }
}

fn begins_greater(text: &[u8]) -> bool
    ensures { result ≡ begins 62 text.now }
{
    match text.first() {
        Some(byte) => *byte == b'>',
        None => false,
    }
}
