ghost use Rattle.std.specs.Prelude.{◌≡◌};
ghost use Rattle.rif_lex.specs.Characters.{class_at};

/// What a byte can begin. A byte from 128 on is a part of a character from U+0080 on.
///
/// Source: our own (docs/FORMATS.md, "Tokens").
#[derive(Clone, Copy, Debug, PartialEq, Eq)]
pub enum Class {
    White,
    Letter,
    Zero,
    Digit,
    Underscore,
    Minus,
    Question,
    Quote,
    Less,
    Open,
    Close,
    OpenSquare,
    CloseSquare,
    Equal,
    Hash,
    Caret,
    Other,
}

/// The class of a byte.
#[inline(always)]
pub fn class_of(byte: u8) -> Class
    ensures { result ≡ class_at byte }
{
    match byte {
        b'a'..=b'z' | b'A'..=b'Z' | 128..=255 => Class::Letter,
        b' ' | b'\n' | b'\t' | b'\r' => Class::White,
        b'0' => Class::Zero,
        b'1'..=b'9' => Class::Digit,
        b'_' => Class::Underscore,
        b'-' => Class::Minus,
        b'?' => Class::Question,
        b'"' => Class::Quote,
        b'<' => Class::Less,
        b'(' => Class::Open,
        b')' => Class::Close,
        b'[' => Class::OpenSquare,
        b']' => Class::CloseSquare,
        b'=' => Class::Equal,
        b'#' => Class::Hash,
        b'^' => Class::Caret,
        _ => Class::Other,
    }
}
