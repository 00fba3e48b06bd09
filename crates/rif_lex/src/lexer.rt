ghost use Rattle.std.specs.Prelude.{◌≡◌};
ghost use Rattle.rif_lex.specs.Lexing.{lexed, tokens_of, Answers, AnswersInto};
ghost use Rattle.rif_lex.specs.Scanning.{IsTextFor, PutsTokens};

use crate::piece::Piece;
use crate::place::{Place, past, past_token};
use crate::token::{Token, Tokens};
use rif_refusals::limits::MOST_INPUT_BYTES;
use rif_refusals::{Fault, Refusal};
use std::alloc::Global;

/// All tokens of the bytes, in order and to their end, or the first of three refusals that stands.
///
/// It goes over the bytes once to see that they are UTF-8, once to see whether all are ASCII, and once
/// for the tokens; it copies nothing, and takes memory for the tokens alone: at first room for half as
/// many as there are bytes, and more than dense rules have.
///
/// Source: our own (docs/FORMATS.md, "Tokens").
pub fn tokens(alloc: Global, bytes: &[u8]) -> Result<Tokens, Fault>
    ensures { Answers result (lexed bytes.now) }
{
    read_text(bytes)?;
    let mut found = Vec::with_capacity(alloc, bytes.len() / 2)?;
    push_tokens(&mut found, bytes)?;
    Ok(Tokens::from_vec(found))
}

/// The same into a list that is there: it is cleared first, and its room is used again. After a fault
/// some of the tokens may stand in it.
///
/// Source: our own (docs/FORMATS.md, "Tokens").
pub fn tokens_into(found: &mut Vec<Token>, bytes: &[u8]) -> Result<(), Fault>
    ensures { AnswersInto result found.new.items (lexed bytes.now) }
{
    found.clear();
    read_text(bytes)?;
    push_tokens(found, bytes)
}

/// Whether the bytes are a text of UTF-8 that isn't too long, or the refusal that says which of the two
/// they aren't.
#[tactic(auto, using(crate::proofs::LexingLemmas::lexed_text, crate::proofs::LexingLemmas::lexed_broken))]
fn read_text(bytes: &[u8]) -> Result<(), Fault>
    ensures { IsTextFor result (lexed bytes.now) (tokens_of bytes.now) }
{
    if bytes.len() > MOST_INPUT_BYTES {
        return Err(Fault::Refused(Refusal::InputTooLong));
    }
    if let Err(broken) = str::from_utf8(bytes) {
        let at = broken.valid_up_to() as u64;
        return Err(Fault::Refused(Refusal::NotUtf8 { at }));
    }
    Ok(())
}

/// Puts the tokens of a text of UTF-8 behind those that are there.
fn push_tokens(found: &mut Vec<Token>, text: &[u8]) -> Result<(), Fault>
    ensures { PutsTokens result found.old.items found.new.items (tokens_of text.now) }
{
    let is_ascii = text.is_ascii();
    let mut place = Place {
        offset: 0,
        line: 1,
        col: 1,
    };
    while place.offset < text.len() {
        let rest = &text[place.offset..];
        match Piece::at_front(rest) {
            Piece::Unreadable => {
                return Err(Fault::Refused(Refusal::BadToken {
                    line: place.line,
                    col: place.col,
                }));
            }
            Piece::Blank(length) => place = past(place, &rest[..length]),
            Piece::Lexeme(kind, length) => {
                found.push(Token {
                    kind,
                    start: place.offset,
                    end: place.offset + length,
                    line: place.line,
                    col: place.col,
                })?;
                place = past_token(place, &rest[..length], is_ascii);
            }
        }
    }
    Ok(())
}
