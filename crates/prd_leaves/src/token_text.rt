//! The texts of tokens, and parts of them.
ghost use Rattle.std.specs.Prelude.{◌≡◌, ◌≤◌, drop, length, suc};
ghost use Rattle.rif_lex.specs.Spelling.{written};
ghost use Rattle.prd_leaves.specs.Leaves.{before_colon, inner};

use rif_lex::Token;

/// The token's bytes. Where its span isn't one of the bytes, what of it is. In constant time.
pub fn text_of(bytes: &[u8], token: Token) -> &[u8]
    ensures { result.now ≡ (written bytes.now token).text }
{
    let start = token.start.min(bytes.len());
    let end = token.end.min(bytes.len()).max(start);
    &bytes[start..end]
}

/// The text behind the sign that a name begins with.
pub(crate) fn behind_sign(text: &[u8]) -> &[u8]
    ensures { result.now ≡ drop 1 text.now }
{
    match text.split_first() {
        None => text,
        Some((_, name)) => name,
    }
}

/// The text between the first and the last byte; in constant time.
pub fn inner(text: &[u8]) -> &[u8]
    ensures { result.now ≡ inner text.now }
{
    let behind = behind_sign(text);
    &behind[..behind.len().saturating_sub(1)]
}

/// What stands before the first colon.
pub(crate) fn before_colon(text: &[u8]) -> &[u8]
    ensures { result.now ≡ before_colon text.now }
{
    &text[..colon_of(text)]
}

/// What stands behind the first colon, or nothing where there is none. It goes over the text up to the colon.
pub fn behind_colon(text: &[u8]) -> &[u8]
    ensures { result.now ≡ drop (suc (length (before_colon text.now))) text.now }
{
    behind_sign(&text[colon_of(text)..])
}

// The place of the first colon, or the end.
fn colon_of(text: &[u8]) -> usize
    ensures is { result ≡ length (before_colon text.now) }
    ensures within { result ≤ length text.now }
{
    let mut at = 0;
    while at < text.len() && text[at] != b':' {
        at += 1;
    }
    at
}
