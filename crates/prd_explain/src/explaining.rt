//! Refusals of documents and of scripts in words: what was found at the place, and what could stand there or which
//! limit is passed.
ghost use Rattle.std.specs.Prelude.{◌≡◌, Ok};
ghost use Rattle.rif_lex.specs.Lexing.{lexed};

use crate::brackets::bracket_open;
use crate::calls::{call_at, push_call};
use crate::expected::{push_expected, push_integers, push_types};
use crate::keywords::hint_of_keyword;
use crate::limits::push_limit;
use crate::names::{hint_of_builtin, hint_of_external};
use crate::spot::{Spot, place_of_token};
use crate::unreadable::push_unreadable;
use prd_grammar::Leaf;
use prd_leaves::{behind_colon, leaves, text_of};
use prd_recognition::place_of_refusal;
use refusal_lines::{Explanation, Place, line_of, push_quoted, text_at};
use rif_lex::Token;
use rif_refusals::Refusal;
use rif_values::OutOfMemory;
use std::alloc::Global;

/// What is said of a refusal of a document: the token at its place, and what could stand there or which limit is
/// passed; where something else is expected, what may be meant, too. The condition is that the tokens are those of
/// the bytes. A refusal that names no token has its own text alone.
///
/// The cost is that of reading the document up to there. No clause says what the words are.
///
/// Source: our own (docs/REFUSALS.md).
pub fn explain(
    alloc: Global,
    tokens: &[Token],
    bytes: &[u8],
    refusal: &Refusal,
) -> Result<Explanation, OutOfMemory>
    requires { lexed bytes.now ≡ Ok tokens.now }
{
    let Some((line, col)) = place_of_refusal(refusal) else {
        return Ok(Explanation::new(alloc, None, whole_text(alloc, refusal)?));
    };
    let (leaves, prefixes) = leaves(alloc, tokens, bytes)?;
    let spot = Spot {
        bytes,
        tokens,
        leaves: leaves.as_slice(),
        prefixes: &prefixes,
        at: index_of(tokens, line, col),
    };
    explain_spot(alloc, refusal, &spot, Place::at(line, col))
}

fn explain_spot(
    alloc: Global,
    refusal: &Refusal,
    spot: &Spot<'_>,
    end: Place,
) -> Result<Explanation, OutOfMemory> {
    let place = match spot.token() {
        Some(token) => place_of_token(spot.bytes, token),
        None => end,
    };
    let mut sentence = sentence_of(alloc, refusal)?;
    push_found(&mut sentence, refusal, spot)?;
    push_more(alloc, &mut sentence, refusal, spot)?;
    let mut explanation = Explanation::new(alloc, Some(place), sentence);
    explanation.hint = hint_of(alloc, refusal, spot)?;
    relate_bracket(alloc, &mut explanation, refusal, spot)?;
    Ok(explanation)
}

/// What is said of a refusal of a job's text, where no token begins or where a line of its script is refused: what
/// stands there. The bytes are those of the job. Any other refusal has its own text alone.
///
/// One pass over the bytes up to the place.
///
/// Source: our own (docs/REFUSALS.md).
pub fn explain_line(
    alloc: Global,
    bytes: &[u8],
    refusal: &Refusal,
) -> Result<Explanation, OutOfMemory> {
    match refusal {
        Refusal::NotUtf8 { at } => {
            let place = Place::behind(bytes, *at);
            Ok(Explanation::new(alloc, Some(place), whole_text(alloc, refusal)?))
        }
        Refusal::BadToken { line, col } => {
            let mut sentence = sentence_of(alloc, refusal)?;
            push_unreadable(&mut sentence, text_at(bytes, *line, *col))?;
            Ok(Explanation::new(alloc, Some(Place::at(*line, *col)), sentence))
        }
        Refusal::BadLine { line }
        | Refusal::BudgetTooLarge { line }
        | Refusal::TooManyItems { line }
        | Refusal::TooManyClients { line } => {
            let mut sentence = sentence_of(alloc, refusal)?;
            sentence.extend_from_slice(b": found ")?;
            push_quoted(&mut sentence, line_of(bytes, *line).trim_ascii())?;
            Ok(Explanation::new(alloc, Some(Place::of_line(bytes, *line)), sentence))
        }
        _ => Ok(Explanation::new(alloc, None, whole_text(alloc, refusal)?)),
    }
}

/// A refusal's own text.
pub fn whole_text(alloc: Global, refusal: &Refusal) -> Result<Vec<u8>, OutOfMemory> {
    Ok(refusal.to_string(alloc)?.into_bytes())
}

/// The same without the place, or the rule, that it begins with.
pub fn sentence_of(alloc: Global, refusal: &Refusal) -> Result<Vec<u8>, OutOfMemory> {
    let text = whole_text(alloc, refusal)?;
    Ok(
        behind_colon(text.as_slice())
            .trim_ascii_start()
            .to_vec(alloc)?,
    )
}

// Which token stands at a place; behind all of them the end stands.
fn index_of(tokens: &[Token], line: u64, col: u64) -> usize {
    tokens
        .iter()
        .position(|token| token.line == line && token.col == col)
        .unwrap_or(tokens.len())
}

// What was found: the token at the place, or what more than that is wrong.
fn push_found(out: &mut Vec<u8>, refusal: &Refusal, spot: &Spot<'_>) -> Result<(), OutOfMemory> {
    if let Refusal::Arity { .. } = refusal {
        if let Some(call) = call_at(spot) {
            return push_call(out, &call);
        }
    }
    out.extend_from_slice(b": found ")?;
    match spot.token() {
        Some(token) => push_quoted(out, text_of(spot.bytes, *token)),
        None => Ok(out.extend_from_slice(b"the end of the document")?),
    }
}

// What could stand there, or how many there may be.
fn push_more(
    alloc: Global,
    out: &mut Vec<u8>,
    refusal: &Refusal,
    spot: &Spot<'_>,
) -> Result<(), OutOfMemory> {
    match refusal {
        Refusal::Expected { .. } => push_expected(alloc, out, spot),
        Refusal::IntRange { .. } => push_integers(out),
        Refusal::LeftOut { .. } => push_types(out, spot.leaf()),
        Refusal::TooMany { what, .. } => push_limit(out, *what),
        _ => Ok(()),
    }
}

// What may be meant.
fn hint_of(
    alloc: Global,
    refusal: &Refusal,
    spot: &Spot<'_>,
) -> Result<Option<Vec<u8>>, OutOfMemory> {
    match (refusal, spot.leaf()) {
        (Refusal::Expected { .. }, Some(Leaf::Word(word))) => hint_of_keyword(alloc, word.bytes()),
        (Refusal::Expected { .. }, Some(Leaf::Open)) => hint_of_external(alloc, spot),
        (Refusal::UnknownBuiltin { .. }, _) => hint_of_builtin(alloc, spot),
        _ => Ok(None),
    }
}

// Which bracket isn't closed, where something else is expected than what is found.
fn relate_bracket(
    alloc: Global,
    explanation: &mut Explanation,
    refusal: &Refusal,
    spot: &Spot<'_>,
) -> Result<(), OutOfMemory> {
    match (refusal, spot.leaf()) {
        (Refusal::Expected { .. }, None | Some(Leaf::Close | Leaf::CloseSquare)) => {
            match bracket_open(spot) {
                Some(open) => {
                    let words = b"this bracket isn't closed".to_vec(alloc)?;
                    explanation.relate(place_of_token(spot.bytes, open), words)
                }
                None => Ok(()),
            }
        }
        _ => Ok(()),
    }
}
