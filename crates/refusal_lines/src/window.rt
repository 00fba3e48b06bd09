//! The part of a line that is shown.
use crate::excerpt::{count_of, length_of};
use crate::place::Place;
use rif_values::OutOfMemory;

/// How many characters of a line are shown.
const MOST_SHOWN: u64 = 100;

/// How many of them stand before the place, where more do.
const MOST_BEFORE: u64 = 50;

/// The part of a line that is shown, and where in it a place is.
#[derive(Clone, Copy)]
pub struct Window<'a> {
    pub text: &'a [u8],
    /// What of it stands before the place.
    before: &'a [u8],
    /// How many characters are meant.
    width: u64,
    is_cut_before: bool,
    is_cut_behind: bool,
    /// Whether a byte follows that isn't UTF-8.
    is_broken: bool,
}

/// The part of a line that is shown for a place in it.
pub fn window_at(line: &[u8], place: Place) -> Window<'_> {
    let (whole, is_broken) = front_in_utf8(line);
    let before = place.col.saturating_sub(1);
    let skipped = before
        .saturating_sub(MOST_BEFORE)
        .min(count_of(whole).saturating_sub(MOST_SHOWN));
    let rest = &whole[length_of(whole, skipped)..];
    let text = &rest[..length_of(rest, MOST_SHOWN)];
    let front = &text[..length_of(text, before.saturating_sub(skipped))];
    Window {
        text,
        before: front,
        width: place
            .width
            .min(count_of(text).saturating_sub(count_of(front))),
        is_cut_before: 0 < skipped,
        is_cut_behind: text.len() < rest.len(),
        is_broken,
    }
}

// The front of a line that is UTF-8, and whether there is more.
fn front_in_utf8(line: &[u8]) -> (&[u8], bool) {
    match str::from_utf8(line) {
        Ok(_) => (line, false),
        Err(broken) => (&line[..broken.valid_up_to().min(line.len())], true),
    }
}

/// The text of a window, with `..` where it is cut, a space in place of each control character but the tab, and `?`
/// in place of a byte that isn't UTF-8.
pub fn push_window(out: &mut Vec<u8>, window: &Window<'_>) -> Result<(), OutOfMemory> {
    if window.is_cut_before {
        out.extend_from_slice(b"..")?;
    }
    for byte in window.text {
        out.push(shown(*byte))?;
    }
    if window.is_cut_behind {
        out.extend_from_slice(b"..")?;
    } else if window.is_broken {
        out.push(b'?')?;
    }
    Ok(())
}

fn shown(byte: u8) -> u8 {
    if byte.is_ascii_control() && byte != b'\t' {
        b' '
    } else {
        byte
    }
}

/// The carets of a window, with white space before them that is as wide as the text before its place.
pub fn push_carets(out: &mut Vec<u8>, window: &Window<'_>) -> Result<(), OutOfMemory> {
    if window.is_cut_before {
        out.extend_from_slice(b"  ")?;
    }
    for byte in window.before {
        push_blank(out, *byte)?;
    }
    out.push(b'^')?;
    for _ in 1..window.width {
        out.push(b'^')?;
    }
    Ok(())
}

// A tab for a tab, and a space for the first byte of each other character.
fn push_blank(out: &mut Vec<u8>, byte: u8) -> Result<(), OutOfMemory> {
    if byte == b'\t' {
        out.push(b'\t')?;
    } else if count_of(&[byte]) == 1 {
        out.push(b' ')?;
    }
    Ok(())
}
