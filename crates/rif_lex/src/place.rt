ghost use Rattle.std.specs.Prelude.{◌≡◌, ◌+◌, ◌<◌, ◌^◌, length, IsTrue};
ghost use Rattle.std.specs.Str.{IsAscii};
ghost use Rattle.rif_lex.specs.Places.{first_place, place_after, place_past, line_feeds};
ghost use Rattle.rif_lex.specs.Scanning.{IsCounted};

/// A place of a text: its offset in bytes from 0, and its line and column, counted from 1, columns
/// in characters.
#[derive(Clone, Copy, Debug)]
pub struct Place {
    pub offset: usize,
    pub line: u64,
    pub col: u64,
}

/// The place behind one byte more.
#[inline(always)]
fn after(place: Place, byte: u8) -> Place
    requires room { place.offset + 1 < 2 ^ 63 }
    requires counted { IsCounted place }
    ensures { result ≡ place_after place byte }
{
    Place {
        offset: place.offset + 1,
        line: if byte == b'\n' {
            place.line + 1
        } else {
            place.line
        },
        col: if byte == b'\n' {
            1
        } else if byte >= 128 && byte <= 191 {
            place.col
        } else {
            place.col + 1
        },
    }
}

/// The place behind some bytes more.
#[inline(always)]
pub fn past(from: Place, bytes: &[u8]) -> Place
    requires room { from.offset + length bytes.now < 2 ^ 63 }
    requires counted { IsCounted from }
    ensures is { result ≡ place_past from bytes.now }
    ensures offset { result.offset ≡ from.offset + length bytes.now }
    ensures counted { IsCounted result }
{
    let mut place = from;
    for byte in bytes {
        place = after(place, *byte);
    }
    place
}

/// The place behind a token, which stands in one line. In ASCII each byte is a character.
#[inline(always)]
#[tactic(auto, using(crate::proofs::PlaceLemmas::past_ascii))]
pub fn past_token(from: Place, token: &[u8], is_ascii: bool) -> Place
    requires room { from.offset + length token.now < 2 ^ 63 }
    requires counted { IsCounted from }
    requires one_line { line_feeds token.now ≡ 0 }
    requires ascii { IsTrue is_ascii → IsAscii token.now }
    ensures is { result ≡ place_past from token.now }
    ensures offset { result.offset ≡ from.offset + length token.now }
    ensures counted { IsCounted result }
{
    if !is_ascii {
        return past(from, token);
    }
    let length = token.len();
    Place {
        offset: from.offset + length,
        line: from.line,
        col: from.col + length as u64,
    }
}

/// The place just past the last character of a text. The cost is its length.
///
/// Source: our own (docs/FORMATS.md, "Tokens").
pub fn end_of(text: &[u8]) -> Place
    ensures { result ≡ place_past first_place text.now }
{
    let start = Place {
        offset: 0,
        line: 1,
        col: 1,
    };
    past(start, text)
}
