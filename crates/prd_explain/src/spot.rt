//! A place of a document: what stands there, and before it.
use prd_grammar::Leaf;
use prd_leaves::{Prefixes, text_of};
use refusal_lines::Place;
use rif_lex::{Kind, Token};

/// A place of a document, with the tokens, the leaves and the prefixes of all of it. Behind the last token the
/// end stands.
#[derive(Clone, Copy)]
pub struct Spot<'a> {
    pub bytes: &'a [u8],
    pub tokens: &'a [Token],
    pub leaves: &'a [Leaf],
    pub prefixes: &'a Prefixes,
    /// Which token stands at the place.
    pub at: usize,
}

impl<'a> Spot<'a> {
    /// The token at the place.
    pub fn token(&self) -> Option<&'a Token> {
        self.tokens.get(self.at)
    }

    /// The leaf at the place.
    pub fn leaf(&self) -> Option<&'a Leaf> {
        self.leaves.get(self.at)
    }

    /// The leaves before the place.
    pub fn leaves_before(&self) -> &'a [Leaf] {
        &self.leaves[..self.at.min(self.leaves.len())]
    }

    /// The leaves from one on that stand before the place.
    pub fn leaves_from(&self, start: usize) -> &'a [Leaf] {
        let before = self.leaves_before();
        &before[start.min(before.len())..]
    }

    /// Which token is the innermost bracket that is open before the place.
    pub fn innermost_bracket(&self) -> Option<usize> {
        let before = &self.tokens[..self.at.min(self.tokens.len())];
        let mut closed = 0u64;
        for left in 0..before.len() {
            let at = before.len() - 1 - left;
            match before[at].kind {
                Kind::Close | Kind::CloseSquare => closed = closed.saturating_add(1),
                Kind::Open | Kind::OpenSquare if closed == 0 => return Some(at),
                Kind::Open | Kind::OpenSquare => closed = closed.saturating_sub(1),
                _ => {}
            }
        }
        None
    }

    /// The text of a token.
    pub fn text(&self, at: usize) -> &'a [u8] {
        match self.tokens.get(at) {
            Some(token) => text_of(self.bytes, *token),
            None => &self.bytes[self.bytes.len()..],
        }
    }
}

/// The place of a token of a text.
pub fn place_of_token(bytes: &[u8], token: &Token) -> Place {
    Place::of_text(token.line, token.col, text_of(bytes, *token))
}
