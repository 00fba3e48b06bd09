//! Terms with numbers.
ghost use Rattle.std.specs.Prelude.{◌≡◌, IfOk, map};
ghost use Rattle.rule_scopes.specs.Numbering.{numbered_term, numbered_pair};

use crate::naming::{Naming, number_in};
use rif_tree::Term;
use rif_values::OutOfMemory;
use sqlite_items::Items;
use std::alloc::Global;

/// A term with numbers.
#[cycle(term)]
#[tactic(auto, using(crate::proofs::NumberingLemmas::term_call))]
pub fn numbered_term(alloc: Global, scope: &[Naming], term: &Term) -> Result<Term, OutOfMemory>
    ensures { IfOk result (λ made. made ≡ numbered_term scope.now term.now) }
{
    match term {
        Term::Const(constant) => Ok(Term::Const(constant.copy()?)),
        Term::Var(var) => Ok(Term::Var(number_in(scope, *var))),
        Term::Call(func, arguments) => {
            Ok(Term::Call(*func, numbered_terms(alloc, scope, arguments.as_slice())?))
        }
    }
}

/// Each of some terms with numbers.
#[cycle(term)]
pub fn numbered_terms(
    alloc: Global,
    scope: &[Naming],
    terms: &[Term],
) -> Result<Items<Term>, OutOfMemory>
    ensures { IfOk result (λ made. made ≡ map (numbered_term scope.now) terms.now) }
{
    let mut all = Vec::with_capacity(alloc, terms.len())?;
    for term in terms {
        all.push(numbered_term(alloc, scope, term)?)?;
    }
    Ok(Items::from_vec(all))
}

/// Each of some pairs of a slot and its value with numbers.
pub fn numbered_pairs(
    alloc: Global,
    scope: &[Naming],
    pairs: &[(Term, Term)],
) -> Result<Items<(Term, Term)>, OutOfMemory>
    ensures { IfOk result (λ made. made ≡ map (numbered_pair scope.now) pairs.now) }
{
    let mut all = Vec::with_capacity(alloc, pairs.len())?;
    for pair in pairs {
        let slot = numbered_term(alloc, scope, &pair.0)?;
        let value = numbered_term(alloc, scope, &pair.1)?;
        all.push((slot, value))?;
    }
    Ok(Items::from_vec(all))
}
