//! Tokens: what a text is made of, or where the first token stands that can't be read.
//!
//! | File | Has | Its words |
//! |---|---|---|
//! | `lexer.rt` | `tokens` and `tokens_into`, all tokens of an input | `specs/Lexing.antt` |
//! | `token.rt` | `Token`, `Kind`, `Tokens` | |
//! | `piece.rt` | the piece at the front of a text: a token, white space or an annotation | `specs/Pieces.antt` |
//! | `scan.rt` | how far names, digits, strings, IRIs and annotations go | `specs/Pieces.antt` |
//! | `class.rt` | characters by their bytes | `specs/Characters.antt` |
//! | `place.rt` | lines and columns | `specs/Places.antt` |
//! | `laws.rt` | laws of the definitions | `specs/Lexing`, `Forms`, `Cutting`, `Spelling`, `Constants` |
//!
//! Begin at `tokens`.
#![tactic(auto)]

mod class;
mod laws;
mod lexer;
mod piece;
mod place;
mod scan;
mod token;

pub use laws::{
    bad_token_is_first, blanks_are_white, constants_are_tokens, few_tokens, forms_are_tokens,
    inputs_are_refused, inputs_are_texts, slices_are_texts, slices_are_tokens, spans_rise,
    spelled_is_lexed, tokens_are_cut, tokens_are_longest, tokens_are_placed,
};
pub use lexer::{tokens, tokens_into};
pub use place::{Place, end_of};
pub use token::{Kind, Token, Tokens};
