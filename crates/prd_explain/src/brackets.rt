//! Brackets that aren't closed.
use crate::spot::Spot;
use rif_lex::{Kind, Token};

/// Which bracket isn't closed, where the end is found, or a closing bracket of the other kind.
pub fn bracket_open<'a>(spot: &Spot<'a>) -> Option<&'a Token> {
    let open = spot.tokens.get(spot.innermost_bracket()?)?;
    if may_close(open, spot.token()) {
        None
    } else {
        Some(open)
    }
}

// Whether a token leaves a bracket as it is, or closes it.
fn may_close(open: &Token, found: Option<&Token>) -> bool {
    match found {
        None => false,
        Some(token) => match (open.kind, token.kind) {
            (Kind::Open, Kind::CloseSquare) | (Kind::OpenSquare, Kind::Close) => false,
            _ => true,
        },
    }
}
