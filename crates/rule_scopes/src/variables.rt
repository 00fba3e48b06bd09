//! Uses of the variables of terms, in the order of the text. None takes memory.
ghost use Rattle.std.specs.Prelude.{◌≡◌, ◌++◌};
ghost use Rattle.std.specs.List.{flat_map};
ghost use Rattle.rif_tree.specs.Variables.{variables_of, variables_of_pair};
ghost use Rattle.safe_rules.specs.BlockScope.{frame_variables};
ghost use Rattle.rule_scopes.specs.Misplaced.{seen_all, seen_used};
ghost use Rattle.rule_scopes.specs.Occurrences.{uses};

use crate::misplaced::{Misplaced, see_use};
use rif_tree::Term;

/// Sees a term's variables.
#[cycle(variables)]
#[tactic(auto, using(crate::proofs::OccurrenceLemmas::variables_call))]
pub fn see_term(found: &mut Misplaced, held: &[u32], term: &Term)
    ensures { found.new ≡ seen_used found.old held.now (variables_of term.now) }
{
    match term {
        Term::Const(_) => {}
        Term::Var(var) => see_use(found, held, *var),
        Term::Call(_, arguments) => see_each(found, held, arguments.as_slice()),
    }
}

#[cycle(variables)]
#[tactic(auto, using(crate::proofs::OccurrenceLemmas::used_append))]
fn see_each(found: &mut Misplaced, held: &[u32], terms: &[Term])
    ensures { found.new ≡ seen_used found.old held.now (flat_map variables_of terms.now) }
{
    for term in terms {
        see_term(found, held, term);
    }
}

#[tactic(auto, using(crate::proofs::OccurrenceLemmas::used_append))]
fn see_pairs(found: &mut Misplaced, held: &[u32], pairs: &[(Term, Term)])
    ensures { found.new ≡ seen_used found.old held.now (flat_map variables_of_pair pairs.now) }
{
    for pair in pairs {
        see_term(found, held, &pair.0);
        see_term(found, held, &pair.1);
    }
}

/// Sees uses of the variables of one term.
#[tactic(auto, using(crate::proofs::OccurrenceLemmas::seen_uses))]
pub fn see_one(found: &mut Misplaced, held: &[u32], term: &Term)
    ensures { found.new ≡ seen_all found.old (uses held.now (variables_of term.now)) }
{
    see_term(found, held, term)
}

/// Sees uses of the variables of some terms.
#[tactic(auto, using(crate::proofs::OccurrenceLemmas::seen_uses))]
pub fn see_terms(found: &mut Misplaced, held: &[u32], terms: &[Term])
    ensures { found.new ≡ seen_all found.old (uses held.now (flat_map variables_of terms.now)) }
{
    see_each(found, held, terms)
}

/// Sees uses of the variables of two terms.
#[tactic(auto, using(crate::proofs::OccurrenceLemmas::used_two))]
pub fn see_two(found: &mut Misplaced, held: &[u32], first: &Term, second: &Term)
    ensures { found.new ≡ seen_all found.old (uses held.now (variables_of first.now ++ variables_of second.now)) }
{
    see_term(found, held, first);
    see_term(found, held, second);
}

/// Sees uses of the variables of an object and its slots.
#[tactic(auto, using(crate::proofs::OccurrenceLemmas::used_two))]
pub fn see_frame(found: &mut Misplaced, held: &[u32], object: &Term, pairs: &[(Term, Term)])
    ensures { found.new ≡ seen_all found.old (uses held.now (frame_variables object.now pairs.now)) }
{
    see_term(found, held, object);
    see_pairs(found, held, pairs);
}
