//! Constants as the lines of a script have them.
ghost use Rattle.std.specs.Prelude.{◌≡◌, ◌∷◌, [], length};
ghost use Rattle.rif_script.specs.ReadingItems.{begins_close, const_behind, const_from, consts_from, int_const};
ghost use Rattle.rif_script.specs.ReadingItems.{iri_const, literal_const, truth_const};
ghost use Rattle.rif_script.specs.SentLeaves.{Gives, seen, with_seen};

use crate::line_fault::LineFault;
use crate::sent_tokens::SentTokens;
use prd_reader::{Leaf, Literal, TextPool};
use rif_tree::Keyword;
use rif_values::{Const, Integer, Listed, Text};

/// The constant at the front, and the tokens behind it.
#[tactic(auto, unfolding(crate::specs::ReadingItems::const_from))]
pub fn read_const<'a>(
    pool: &mut TextPool,
    at: SentTokens<'a>,
) -> Result<(Const, SentTokens<'a>), LineFault>
    ensures { Gives with_seen result (const_from (seen at.entry)) }
{
    let Some((leaf, rest)) = at.first(pool)? else {
        return Err(LineFault::Bad);
    };
    const_behind(pool, leaf, rest)
}

/// The constant that begins with a leaf, behind which these tokens stand, and the tokens behind it.
pub fn const_behind<'a>(
    pool: &mut TextPool,
    leaf: Leaf,
    rest: SentTokens<'a>,
) -> Result<(Const, SentTokens<'a>), LineFault>
    ensures { Gives with_seen result (const_behind (seen rest.entry) leaf) }
{
    match leaf {
        Leaf::Typed(literal) => {
            let rest = rest.past_type(pool)?;
            Ok((literal_const(literal)?, rest))
        }
        Leaf::Key(word) => Ok((truth_const(word)?, rest)),
        Leaf::Int(number) => Ok((int_const(number)?, rest)),
        Leaf::Str(text) => Ok((Const::Str(text), rest)),
        Leaf::Iri(text) => Ok((Const::Iri(text), rest)),
        Leaf::Curie(iri) => Ok((iri_const(iri)?, rest)),
        Leaf::Local(text) => Ok((Const::Local(text), rest)),
        _ => Err(LineFault::Bad),
    }
}

/// The constants up to a bracket, and the tokens behind it.
pub fn read_consts<'a>(
    pool: &mut TextPool,
    at: SentTokens<'a>,
) -> Result<(Listed<Const>, SentTokens<'a>), LineFault>
    ensures { Gives with_seen result (consts_from (length (seen at.entry)) (seen at.entry)) }
{
    let mut found = Listed::new(pool.alloc());
    let mut left = at.len();
    let mut rest = at;
    while left > 0 {
        left -= 1;
        let Some((leaf, behind)) = rest.first(pool)? else {
            return Err(LineFault::Bad);
        };
        if is_close(&leaf) {
            return Ok((found, behind));
        }
        let (constant, next) = const_behind(pool, leaf, behind)?;
        found.push(constant)?;
        rest = next;
    }
    Err(LineFault::Bad)
}

fn is_close(leaf: &Leaf) -> bool
    ensures { result ≡ begins_close (leaf.now ∷ []) }
{
    matches!(leaf, Leaf::Close)
}

fn literal_const(literal: Literal) -> Result<Const, LineFault>
    ensures { Gives (λ c. c) result (literal_const literal) }
{
    match literal {
        Literal::Integer(number) => int_const(number),
        Literal::Boolean(truth) => Ok(Const::Bool(truth)),
        Literal::String(text) => Ok(Const::Str(text)),
        Literal::Iri(text) => Ok(Const::Iri(text)),
        Literal::Local(text) => Ok(Const::Local(text)),
        Literal::OfNoType => Err(LineFault::Bad),
    }
}

fn truth_const(word: Keyword) -> Result<Const, LineFault>
    ensures { Gives (λ c. c) result (truth_const word) }
{
    match word {
        Keyword::True => Ok(Const::Bool(true)),
        Keyword::False => Ok(Const::Bool(false)),
        _ => Err(LineFault::Bad),
    }
}

fn int_const(number: Option<Integer>) -> Result<Const, LineFault>
    ensures { Gives (λ c. c) result (int_const number) }
{
    match number {
        Some(number) => Ok(Const::Int(number)),
        None => Err(LineFault::Bad),
    }
}

fn iri_const(iri: Option<Text>) -> Result<Const, LineFault>
    ensures { Gives (λ c. c) result (iri_const iri) }
{
    match iri {
        Some(iri) => Ok(Const::Iri(iri)),
        None => Err(LineFault::Bad),
    }
}
