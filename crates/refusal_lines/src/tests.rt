//! How the lines of a text are shown.
use crate::{Explanation, Place, lines_of};
use std::test::Fail;

/// A line of a text, a column and a number of characters in it, and what is printed for them.
static LINES: &[(&str, u64, u64, &str)] = &[
    ("", 1, 1, "  |\n7 |\n  | ^"),
    ("a(b)", 2, 1, "  |\n7 | a(b)\n  |  ^"),
    ("\té\tsuch  ", 4, 4, "  |\n7 | \té\tsuch\n  | \t \t^^^^"),
    ("a\u{1b}[31mb\r", 8, 1, "  |\n7 | a [31mb\n  |        ^"),
    (
        "123456789 123456789 123456789 123456789 123456789 123456789 123456789 123456789 123456789 123456789 1",
        53,
        99,
        "  |\n7 | ..23456789 123456789 123456789 123456789 123456789 123456789 123456789 123456789 \
         123456789 123456789 1\n  |                                                      \
         ^^^^^^^^^^^^^^^^^^^^^^^^^^^^^^^^^^^^^^^^^^^^^^^^^",
    ),
    (
        "123456789 123456789 123456789 123456789 123456789 123456789 123456789 123456789 123456789 123456789 1",
        1,
        9,
        "  |\n7 | 123456789 123456789 123456789 123456789 123456789 123456789 123456789 123456789 \
         123456789 123456789 ..\n  | ^^^^^^^^^",
    ),
];

#[test]
fn a_line_is_cut_and_marked(rt: HostRuntime) -> Result<(), Fail> {
    let alloc = rt.alloc();
    for (line, col, width, lines) in LINES {
        let input = format!(in alloc; "\n\n\n\n\n\n{line}\n8\n")?;
        let place = Place {
            line: 7,
            col: *col,
            width: *width,
            is_line: false,
        };
        let sentence = b"here".to_vec(alloc)?;
        let explanation = Explanation {
            place: Some(place),
            sentence,
            related: Vec::new(alloc),
            untold: 0,
            hint: None,
        };
        let text = String::from_utf8(lines_of(alloc, input.as_bytes(), &explanation)?)?;
        let wanted = format!(in alloc; "line 7, column {col}: here\n{lines}")?;
        assert_eq!(rt; text.as_str(), wanted.as_str());
    }
    Ok(())
}
