//! Places of a text.
use crate::excerpt::{count_of, line_of, text_of_line};

/// A place of a text. Lines and columns are counted from 1, columns and widths in characters.
#[derive(Clone, Copy, Debug)]
pub struct Place {
    pub line: u64,
    pub col: u64,
    /// How many characters are meant.
    pub width: u64,
    /// Whether the line as a whole is meant, so that no column is told.
    pub is_line: bool,
}

impl Place {
    /// One character.
    pub fn at(line: u64, col: u64) -> Place {
        Place {
            line,
            col,
            width: 1,
            is_line: false,
        }
    }

    /// The place of a text that begins there and stands in that line.
    pub fn of_text(line: u64, col: u64, text: &[u8]) -> Place {
        Place {
            line,
            col,
            width: count_of(text),
            is_line: false,
        }
    }

    /// A line, without the white space at its ends.
    pub fn of_line(bytes: &[u8], line: u64) -> Place {
        let text = line_of(bytes, line);
        let trimmed = text.trim_ascii();
        let before = text.len().saturating_sub(text.trim_ascii_start().len());
        Place {
            line,
            col: (before as u64).saturating_add(1),
            width: count_of(trimmed),
            is_line: true,
        }
    }

    /// The place behind the first so many bytes.
    pub fn behind(bytes: &[u8], count: u64) -> Place {
        let before = &bytes[..bytes.len().min(count as usize)];
        let (line, last) = text_of_line(before);
        Place::at(line, count_of(last).saturating_add(1))
    }
}
