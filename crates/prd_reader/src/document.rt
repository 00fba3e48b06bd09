ghost use Rattle.std.specs.Prelude.{◌≡◌, IfErr, IfOk, Ok};
ghost use Rattle.rif_lex.specs.Lexing.{lexed};
ghost use Rattle.prd_leaves.specs.Documents.{IsDocumentOf, IsRead, RefusesDocument, column_of, line_of};
ghost use Rattle.prd_limits.specs.Limits.{KeepsLimits, KeepsPlaces};

use prd_building::build;
use prd_leaves::{Prefixes, leaves};
use prd_recognition::{Outcome, recognize, refusal_at};
use rif_lex::{Token, Tokens, end_of};
use rif_refusals::Fault;
use rif_tree::Doc;
use std::alloc::Global;

/// The document that the tokens of these bytes stand for, or the refusal that decides: 4 to 13, each
/// exactly at its place. The condition is that the tokens are those of the bytes.
///
/// The cost is linear in the bytes; it recurses as deep as brackets are open, which is 64 at most.
///
/// Source: our own (docs/FORMATS.md, "Grammar" and "Refusals").
pub fn read_doc(alloc: Global, tokens: &Tokens, bytes: &[u8]) -> Result<Doc, Fault>
    requires { lexed bytes.now ≡ Ok tokens.now }
    ensures read { IfOk result (IsDocumentOf tokens.now bytes.now) }
    ensures limits { IfOk result KeepsLimits }
    ensures places { IfOk result KeepsPlaces }
    ensures refused { IfErr result (RefusesDocument tokens.now bytes.now) }
{
    let (doc, _) = read_parts(alloc, tokens, bytes)?;
    Ok(doc)
}

/// The same, with the prefixes that the document declares, in the order in which their names were first
/// declared.
///
/// Source: our own (docs/FORMATS.md, "Grammar", "Names" and "Refusals").
pub fn read_parts(alloc: Global, tokens: &Tokens, bytes: &[u8]) -> Result<(Doc, Prefixes), Fault>
    requires { lexed bytes.now ≡ Ok tokens.now }
    ensures read { IfOk result (λ parts. IsRead tokens.now bytes.now parts.0 parts.1) }
    ensures limits { IfOk result (λ parts. KeepsLimits parts.0) }
    ensures places { IfOk result (λ parts. KeepsPlaces parts.0) }
    ensures refused { IfErr result (RefusesDocument tokens.now bytes.now) }
{
    let (leaves, prefixes) = leaves(alloc, tokens.as_slice(), bytes)?;
    match recognize(alloc, leaves.as_slice())? {
        Outcome::Refused { place, cause } => {
            let (line, col) = place_of(tokens.as_slice(), bytes, place);
            Err(Fault::Refused(refusal_at(cause, line, col)))
        }
        Outcome::Document(names) => {
            match build(alloc, leaves.as_slice(), names.as_slice())? {
                Some(doc) => Ok((doc, prefixes)),
                None => unreachable!(),
            }
        }
    }
}

// The line and the column of a token, or of the end.
fn place_of(tokens: &[Token], bytes: &[u8], place: usize) -> (u64, u64)
    ensures line { result.0 ≡ line_of bytes.now tokens.now place }
    ensures col { result.1 ≡ column_of bytes.now tokens.now place }
{
    match tokens.get(place) {
        Some(token) => (token.line, token.col),
        None => {
            let end = end_of(bytes);
            (end.line, end.col)
        }
    }
}
