//! What stands where no token begins, in words.
use refusal_lines::push_quoted;
use rif_values::OutOfMemory;

/// What stands where no token begins.
pub fn push_unreadable(out: &mut Vec<u8>, text: &[u8]) -> Result<(), OutOfMemory> {
    out.extend_from_slice(b": found ")?;
    match words_of_unreadable(text) {
        Some(words) => Ok(out.extend_from_slice(words.as_bytes())?),
        None => push_quoted(out, before_break(text)),
    }
}

// In words, where the text alone wouldn't show what is wrong. A bracket is a token but where it begins an
// annotation.
fn words_of_unreadable(text: &[u8]) -> Option<&'static str> {
    match text.first() {
        Some(b'(') => Some("an annotation that isn't closed"),
        Some(b'"') if is_string_closed(text) => Some("a string with an escape that there isn't"),
        Some(b'"') => Some("a string that isn't closed"),
        Some(byte) if byte.is_ascii_control() => Some("a control character"),
        _ if has_leading_zero(text) => Some("a number with a leading zero"),
        _ => None,
    }
}

// Whether a text begins with digits, of which the first is a zero too many, with or without a sign before them.
fn has_leading_zero(text: &[u8]) -> bool {
    let digits = match text.first() {
        Some(b'-') => &text[1..],
        _ => text,
    };
    2 <= digits.len() && digits[0] == b'0' && digits[1].is_ascii_digit()
}

// What of a text stands before the first bracket or white space behind its first character.
fn before_break(text: &[u8]) -> &[u8] {
    for at in 1..text.len() {
        if is_break(text[at]) {
            return &text[..at];
        }
    }
    text
}

// Whether the string that a text begins with is closed in its line.
fn is_string_closed(text: &[u8]) -> bool {
    let mut escaped = true;
    for byte in text {
        match *byte {
            b'\n' => return false,
            b'"' if !escaped => return true,
            b'\\' => escaped = !escaped,
            _ => escaped = false,
        }
    }
    false
}

// A bracket, or white space between tokens.
fn is_break(byte: u8) -> bool {
    match byte {
        b'(' | b')' | b'[' | b']' | b' ' | b'\t' | b'\r' | b'\n' => true,
        _ => false,
    }
}
