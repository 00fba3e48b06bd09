//! Parts of a text, as they stand in a line for people.
ghost use Rattle.std.specs.Prelude.{◌≤◌, length};

use itoa::Buffer;
use rif_values::OutOfMemory;

// How many characters of a text are shown.
const MOST_CHARACTERS: u64 = 40;

// How many characters of a built-in's name are shown, which is enough for its IRI.
const MOST_OF_NAME: u64 = 100;

/// Puts a number at the end of `out`.
pub fn push_number(out: &mut Vec<u8>, number: u64) -> Result<(), OutOfMemory> {
    let mut text = Buffer::new();
    out.extend_from_slice(text.format(number).as_bytes())?;
    Ok(())
}

/// Puts a text between backquotes at the end of `out`, as `push_short` does.
pub fn push_quoted(out: &mut Vec<u8>, text: &[u8]) -> Result<(), OutOfMemory> {
    out.push(b'`')?;
    push_short(out, text)?;
    out.push(b'`')?;
    Ok(())
}

/// Puts at most 40 characters of a text at the end of `out`, with `..` behind where there are more, and a space
/// in place of each control character.
pub fn push_short(out: &mut Vec<u8>, text: &[u8]) -> Result<(), OutOfMemory> {
    push_cut(out, text, MOST_CHARACTERS)
}

/// The same with more characters, for a built-in's name.
pub fn push_name(out: &mut Vec<u8>, name: &[u8]) -> Result<(), OutOfMemory> {
    push_cut(out, name, MOST_OF_NAME)
}

fn push_cut(out: &mut Vec<u8>, text: &[u8], most: u64) -> Result<(), OutOfMemory> {
    let end = length_of(text, most);
    for byte in &text[..end] {
        out.push(if byte.is_ascii_control() { b' ' } else { *byte })?;
    }
    if end < text.len() {
        out.extend_from_slice(b"..")?;
    }
    Ok(())
}

/// The text from a place on; lines and columns are counted from 1, columns in characters.
pub fn text_at(bytes: &[u8], line: u64, col: u64) -> &[u8] {
    let text = lines_from(bytes, line);
    &text[length_of(text, col.saturating_sub(1))..]
}

/// The text of a line, without the white space at its end.
pub fn line_of(bytes: &[u8], line: u64) -> &[u8] {
    let text = lines_from(bytes, line);
    match text.iter().position(|byte| *byte == b'\n') {
        Some(end) => text[..end].trim_ascii_end(),
        None => text.trim_ascii_end(),
    }
}

/// The number of the last line of a text, and what it has.
pub fn text_of_line(bytes: &[u8]) -> (u64, &[u8]) {
    let mut line = 1u64;
    let mut text = bytes;
    for _ in 0..bytes.len() {
        match text.iter().position(|byte| *byte == b'\n') {
            Some(end) => text = &text[end + 1..],
            None => return (line, text),
        }
        line = line.saturating_add(1);
    }
    (line, text)
}

/// How many characters a text has.
pub fn count_of(text: &[u8]) -> u64 {
    text.iter().filter(|byte| !is_continuation(**byte)).count() as u64
}

/// How many bytes the first so many characters of a text have, or all where it has fewer.
pub fn length_of(text: &[u8], characters: u64) -> usize
    ensures { result ≤ length text.now }
{
    let mut left = characters;
    for at in 0..text.len() {
        if !is_continuation(text[at]) {
            if left == 0 {
                return at;
            }
            left -= 1;
        }
    }
    text.len()
}

// Whether a byte isn't the first of its character.
fn is_continuation(byte: u8) -> bool {
    128 <= byte && byte < 192
}

// The text from the front of a line on.
fn lines_from(bytes: &[u8], line: u64) -> &[u8] {
    let mut text = bytes;
    for _ in 1..line {
        match text.iter().position(|byte| *byte == b'\n') {
            Some(end) => text = &text[end + 1..],
            None => return &text[text.len()..],
        }
    }
    text
}
