ghost use Rattle.std.specs.Prelude.{◌≡◌, ◌≤◌, ◌<◌, ◌+◌, length, drop, slice_index, IfSome, IsTrue};
ghost use Rattle.rif_lex.specs.Characters.{begins, begins_two, begins_escape, is_name, class_at};
ghost use Rattle.rif_lex.specs.Pieces.{name_length, digits_length, string_length, iri_length, annotation_length};
ghost use Rattle.rif_lex.specs.Pieces.{longer};

/// Whether the text has the byte at the place.
#[inline(always)]
pub fn has_at(text: &[u8], at: usize, byte: u8) -> bool
    requires { at ≤ length text.now }
    ensures { result ≡ begins byte (drop at text.now) }
{
    at < text.len() && text[at] == byte
}

/// Whether the byte at the place is one of a name character.
#[inline(always)]
pub fn is_name_at(text: &[u8], at: usize) -> bool
    requires { at < length text.now }
    ensures { result ≡ is_name (class_at (slice_index text.now at)) (drop (at + 1) text.now) }
{
    let byte = text[at];
    if byte >= b'a' {
        return byte <= b'z' || byte >= 128;
    }
    match byte {
        b'A'..=b'Z' | b'0'..=b'9' | b'_' => true,
        b'-' => !has_at(text, at + 1, b'>'),
        _ => false,
    }
}

/// The end of the name characters from a place on.
#[inline(always)]
pub fn name_end(text: &[u8], from: usize) -> usize
    requires { from ≤ length text.now }
    ensures end { result ≡ from + name_length (drop from text.now) }
    ensures low { from ≤ result }
    ensures high { result ≤ length text.now }
{
    let mut at = from;
    while at < text.len() && is_name_at(text, at) {
        at += 1;
    }
    at
}

/// The end of the digits from a place on.
pub fn digits_end(text: &[u8], from: usize) -> usize
    requires { from ≤ length text.now }
    ensures end { result ≡ from + digits_length (drop from text.now) }
    ensures low { from ≤ result }
    ensures high { result ≤ length text.now }
{
    let mut at = from;
    while at < text.len() && text[at] >= b'0' && text[at] <= b'9' {
        at += 1;
    }
    at
}

/// Whether what stands at the place may follow a backslash.
fn is_escape_at(text: &[u8], at: usize) -> bool
    requires { at ≤ length text.now }
    ensures is { result ≡ begins_escape (drop at text.now) }
    ensures within { IsTrue result → at + 1 ≤ length text.now }
{
    at < text.len() && matches!(text[at], b'"' | b'\\' | b'n' | b't' | b'r')
}

/// The end of the string whose characters begin at a place, past its closing quote.
#[tactic(auto, using(crate::proofs::ScanLemmas::escape_more))]
pub fn string_end(text: &[u8], from: usize) -> Option<usize>
    requires { from ≤ length text.now }
    ensures end { result ≡ longer from (string_length (drop from text.now)) }
    ensures within { IfSome result (λ end. (from < end) × (end ≤ length text.now)) }
{
    let mut at = from;
    while at < text.len() {
        match text[at] {
            b'"' => return Some(at + 1),
            b'\n' => return None,
            b'\\' if !is_escape_at(text, at + 1) => return None,
            b'\\' => at += 2,
            _ => at += 1,
        }
    }
    None
}

/// The end of the IRI whose characters begin at a place, past its `>`.
pub fn iri_end(text: &[u8], from: usize) -> Option<usize>
    requires { from ≤ length text.now }
    ensures end { result ≡ longer from (iri_length (drop from text.now)) }
    ensures within { IfSome result (λ end. (from < end) × (end ≤ length text.now)) }
{
    let mut at = from;
    while at < text.len() {
        match text[at] {
            b'>' => return Some(at + 1),
            b'<' | b'"' | 0..=32 => return None,
            _ => at += 1,
        }
    }
    None
}

/// Whether an annotation is closed at the place.
#[inline(always)]
fn is_close_at(text: &[u8], at: usize) -> bool
    requires { at ≤ length text.now }
    ensures is { result ≡ begins_two 42 41 (drop at text.now) }
    ensures within { IsTrue result → at + 2 ≤ length text.now }
{
    at < text.len() && text[at] == b'*' && has_at(text, at + 1, b')')
}

/// The end of the annotation whose characters begin at a place, past its `*)`.
#[tactic(auto, using(crate::proofs::ScanLemmas::annotation_more))]
pub fn annotation_end(text: &[u8], from: usize) -> Option<usize>
    requires { from ≤ length text.now }
    ensures end { result ≡ longer from (annotation_length (drop from text.now)) }
    ensures within { IfSome result (λ end. (from < end) × (end ≤ length text.now)) }
{
    let mut at = from;
    while at < text.len() {
        if is_close_at(text, at) {
            return Some(at + 2);
        }
        at += 1;
    }
    None
}
