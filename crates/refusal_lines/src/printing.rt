//! The lines that tell people of a refusal.
use crate::excerpt::{line_of, push_number};
use crate::explanation::Explanation;
use crate::place::Place;
use crate::window::{Window, push_carets, push_window, window_at};
use itoa::Buffer;
use rif_values::OutOfMemory;
use std::alloc::Global;

/// The lines that tell people of a refusal of an input: its place and what is wrong there, the line of the input with
/// carets under the place, the same for each related place, and the hint. It ends without a line feed. A line of more
/// than 100 characters is cut around its place.
///
/// One pass over the input for each place.
///
/// Source: our own (docs/REFUSALS.md).
pub fn lines_of(
    alloc: Global,
    input: &[u8],
    explanation: &Explanation,
) -> Result<Vec<u8>, OutOfMemory> {
    let mut out = Vec::new(alloc);
    push_told(
        &mut out,
        input,
        explanation.place,
        explanation.sentence.as_slice(),
    )?;
    for related in explanation.related.as_slice() {
        out.push(b'\n')?;
        push_told(
            &mut out,
            input,
            Some(related.place),
            related.words.as_slice(),
        )?;
    }
    push_end(&mut out, explanation)?;
    Ok(out)
}

// How many more places there are, and the hint.
fn push_end(out: &mut Vec<u8>, explanation: &Explanation) -> Result<(), OutOfMemory> {
    if 0 < explanation.untold {
        out.extend_from_slice(b"\nand ")?;
        push_number(out, explanation.untold)?;
        out.extend_from_slice(b" more")?;
    }
    if let Some(hint) = &explanation.hint {
        out.extend_from_slice(b"\nhint: ")?;
        out.extend_from_slice(hint.as_slice())?;
    }
    Ok(())
}

// Some words with their place before them and its line below.
fn push_told(
    out: &mut Vec<u8>,
    input: &[u8],
    place: Option<Place>,
    words: &[u8],
) -> Result<(), OutOfMemory> {
    match place {
        Some(place) => {
            push_place(out, place)?;
            out.extend_from_slice(b": ")?;
            out.extend_from_slice(words)?;
            push_line(out, input, place)
        }
        None => Ok(out.extend_from_slice(words)?),
    }
}

/// The line and the column of a place; where the line as a whole is meant, the line alone.
pub fn push_place(out: &mut Vec<u8>, place: Place) -> Result<(), OutOfMemory> {
    out.extend_from_slice(b"line ")?;
    push_number(out, place.line)?;
    if !place.is_line {
        out.extend_from_slice(b", column ")?;
        push_number(out, place.col)?;
    }
    Ok(())
}

// The line of a place, with carets under it.
fn push_line(out: &mut Vec<u8>, input: &[u8], place: Place) -> Result<(), OutOfMemory> {
    let mut buffer = Buffer::new();
    let number = buffer.format(place.line).as_bytes();
    let window = window_at(line_of(input, place.line), place);
    push_margin(out, number.len())?;
    out.push(b'\n')?;
    out.extend_from_slice(number)?;
    out.extend_from_slice(b" |")?;
    push_shown(out, &window)?;
    push_margin(out, number.len())?;
    out.push(b' ')?;
    push_carets(out, &window)
}

fn push_shown(out: &mut Vec<u8>, window: &Window<'_>) -> Result<(), OutOfMemory> {
    if !window.text.is_empty() {
        out.push(b' ')?;
    }
    push_window(out, window)
}

// A line that begins with so many spaces in place of a number.
fn push_margin(out: &mut Vec<u8>, width: usize) -> Result<(), OutOfMemory> {
    out.push(b'\n')?;
    for _ in 0..width {
        out.push(b' ')?;
    }
    out.extend_from_slice(b" |")?;
    Ok(())
}
