//! Facts as the lines of a script have them.
ghost use Rattle.std.specs.Prelude.{◌≡◌};
ghost use Rattle.rif_script.specs.ReadingItems.{atom_from, fact_behind, fact_from, fact_with, frame_from, is_name};
ghost use Rattle.rif_script.specs.ReadingItems.{member_from, past_arrow, past_close_square};
ghost use Rattle.rif_script.specs.SentLeaves.{Gives, seen};

use crate::constants::{read_const, read_consts};
use crate::line_fault::LineFault;
use crate::sent_tokens::SentTokens;
use prd_reader::{Leaf, TextPool};
use rif_values::{Const, Fact, Shared};

/// The fact that all the tokens are.
#[tactic(auto, unfolding(crate::specs::ReadingItems::fact_from))]
pub fn read_fact(pool: &mut TextPool, at: SentTokens<'_>) -> Result<Fact, LineFault>
    ensures { Gives (λ fact. fact) result (fact_from (seen at.entry)) }
{
    let (object, rest) = read_const(pool, at)?;
    fact_with(pool, object, rest)
}

// The fact that begins with a constant, behind which these tokens stand.
fn fact_with(pool: &mut TextPool, object: Const, at: SentTokens<'_>) -> Result<Fact, LineFault>
    ensures { Gives (λ fact. fact) result (fact_with object (seen at.entry)) }
{
    let Some((leaf, rest)) = at.first(pool)? else {
        return Err(LineFault::Bad);
    };
    fact_behind(pool, object, &leaf, rest)
}

/// The fact that begins with a constant, and goes on with the leaf, behind which these tokens stand.
pub fn fact_behind(
    pool: &mut TextPool,
    object: Const,
    leaf: &Leaf,
    rest: SentTokens<'_>,
) -> Result<Fact, LineFault>
    ensures { Gives (λ fact. fact) result (fact_behind object (seen rest.entry) leaf.now) }
{
    match leaf {
        Leaf::Hash => read_member(pool, object, rest),
        Leaf::OpenSquare => read_frame(pool, object, rest),
        Leaf::Open => read_atom(pool, object, rest),
        _ => Err(LineFault::Bad),
    }
}

// A membership, behind its `#`.
#[tactic(auto, unfolding(crate::specs::ReadingItems::member_from))]
fn read_member(pool: &mut TextPool, object: Const, at: SentTokens<'_>) -> Result<Fact, LineFault>
    ensures { Gives (λ fact. fact) result (member_from object (seen at.entry)) }
{
    let (class, rest) = read_const(pool, at)?;
    if !rest.is_empty() {
        return Err(LineFault::Bad);
    }
    Ok(Fact::Member(object, class))
}

// A frame, behind its `[`.
#[tactic(auto, unfolding(crate::specs::ReadingItems::frame_from))]
fn read_frame(pool: &mut TextPool, object: Const, at: SentTokens<'_>) -> Result<Fact, LineFault>
    ensures { Gives (λ fact. fact) result (frame_from object (seen at.entry)) }
{
    let (slot, rest) = read_const(pool, at)?;
    let rest = rest.past_arrow(pool)?;
    let (value, rest) = read_const(pool, rest)?;
    let rest = rest.past_close_square(pool)?;
    if !rest.is_empty() {
        return Err(LineFault::Bad);
    }
    Ok(Fact::Frame(object, slot, value))
}

// An atom, behind its `(`.
#[tactic(auto, unfolding(crate::specs::ReadingItems::atom_from))]
fn read_atom(pool: &mut TextPool, predicate: Const, at: SentTokens<'_>) -> Result<Fact, LineFault>
    ensures { Gives (λ fact. fact) result (atom_from predicate (seen at.entry)) }
{
    if !is_name(&predicate) {
        return Err(LineFault::Bad);
    }
    let (arguments, rest) = read_consts(pool, at)?;
    if !rest.is_empty() {
        return Err(LineFault::Bad);
    }
    let arguments = Shared::from_vec(pool.alloc(), arguments.into_vec())?;
    Ok(Fact::Atom(predicate, arguments))
}

// Whether a constant may be a name.
fn is_name(constant: &Const) -> bool
    ensures { result ≡ is_name constant.now }
{
    match constant {
        Const::Iri(_) | Const::Local(_) => true,
        Const::Int(_) | Const::Bool(_) | Const::Str(_) | Const::Fresh(_) => false,
    }
}
