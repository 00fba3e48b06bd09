//! Whether a conjunct without formulas inside it is ready.
ghost use Rattle.std.specs.Prelude.{◌≡◌, [], ◌∷◌, IfOk};
ghost use Rattle.std.specs.List.{flat_map, list_all};
ghost use Rattle.rif_tree.specs.Ready.{pattern_ready, equal_ready, slots_ready, is_unbound_variable};
ghost use Rattle.rif_tree.specs.Variables.{variables_of, called_variables_of, has_all};
ghost use Rattle.ready_order.specs.Findings.{plain_ready};

use crate::variables::{push_both, push_variables};
use rif_tree::{Formula, Term, has_variable};
use rif_values::OutOfMemory;
use std::alloc::Global;

/// Whether a conjunct without formulas inside it is ready; no other is by this test. It takes memory for a frame of
/// several slots alone.
pub(crate) fn is_plain_ready(
    alloc: Global,
    bound: &[u32],
    conjunct: &Formula,
) -> Result<bool, OutOfMemory>
    ensures { IfOk result (λ ready. ready ≡ plain_ready bound.now conjunct.now) }
{
    match conjunct {
        Formula::Equal(left, right) => Ok(is_equal_ready(bound, left, right)),
        Formula::Member(object, class) => Ok(is_member_ready(bound, object, class)),
        Formula::Frame(object, pairs) => are_slots_ready(alloc, bound, object, pairs.as_slice()),
        Formula::Atom(_, terms) => Ok(is_pattern_ready(bound, terms.as_slice())),
        Formula::Holds(_, terms) => Ok(are_bound(bound, terms.as_slice())),
        Formula::And(_) => Ok(false),
        Formula::Or(_) => Ok(false),
        Formula::Not(_) => Ok(false),
        Formula::Exists(..) => Ok(false),
    }
}

// Whether all variables inside the function terms of a pattern's terms are bound.
fn is_pattern_ready(bound: &[u32], terms: &[Term]) -> bool
    ensures { result ≡ pattern_ready bound.now terms.now }
{
    for term in terms {
        if !is_called_bound(bound, term) {
            return false;
        }
    }
    true
}

// Whether all variables inside the function terms of an object and its class are bound.
fn is_member_ready(bound: &[u32], object: &Term, class: &Term) -> bool
    ensures { result ≡ pattern_ready bound.now (object.now ∷ class.now ∷ []) }
{
    is_called_bound(bound, object) && is_called_bound(bound, class)
}

// Whether the slots of a frame are ready in their order.
fn are_slots_ready(
    alloc: Global,
    bound: &[u32],
    object: &Term,
    pairs: &[(Term, Term)],
) -> Result<bool, OutOfMemory>
    ensures { IfOk result (λ ready. ready ≡ slots_ready object.now pairs.now bound.now) }
{
    match pairs {
        [pair] => Ok(is_slot_ready(bound, object, pair)),
        _ => are_slots_in_turn(alloc, bound, object, pairs),
    }
}

fn are_slots_in_turn(
    alloc: Global,
    bound: &[u32],
    object: &Term,
    pairs: &[(Term, Term)],
) -> Result<bool, OutOfMemory>
    ensures { IfOk result (λ ready. ready ≡ slots_ready object.now pairs.now bound.now) }
{
    let mut held = bound.to_vec(alloc)?;
    for pair in pairs {
        if !is_slot_ready(held.as_slice(), object, pair) {
            return Ok(false);
        }
        push_variables(&mut held, object)?;
        push_both(&mut held, &pair.0, &pair.1)?;
    }
    Ok(true)
}

fn is_slot_ready(bound: &[u32], object: &Term, pair: &(Term, Term)) -> bool
    ensures { result ≡ pattern_ready bound.now (object.now ∷ pair.now.0 ∷ pair.now.1 ∷ []) }
{
    is_called_bound(bound, object)
        && is_called_bound(bound, &pair.0)
        && is_called_bound(bound, &pair.1)
}

// Whether all variables of an equality are bound, or one side is a variable that isn't and the other side's are.
fn is_equal_ready(bound: &[u32], left: &Term, right: &Term) -> bool
    ensures { result ≡ equal_ready bound.now left.now right.now }
{
    let is_left = is_bound(bound, left);
    let is_right = is_bound(bound, right);
    (is_left && is_right)
        || (is_unbound_variable(bound, left) && is_right)
        || (is_unbound_variable(bound, right) && is_left)
}

// Whether all variables of a term are bound.
#[cycle(bound)]
#[tactic(auto, using(crate::proofs::BoundLemmas::bound_call, crate::proofs::BoundLemmas::bound_each))]
fn is_bound(bound: &[u32], term: &Term) -> bool
    ensures { result ≡ has_all bound.now (variables_of term.now) }
{
    match term {
        Term::Const(_) => true,
        Term::Var(var) => has_variable(bound, *var),
        Term::Call(_, arguments) => are_bound(bound, arguments.as_slice()),
    }
}

// Whether all variables of some terms, a predicate's arguments, are bound.
#[cycle(bound)]
#[tactic(auto, using(crate::proofs::BoundLemmas::bound_each))]
fn are_bound(bound: &[u32], terms: &[Term]) -> bool
    ensures { result ≡ has_all bound.now (flat_map variables_of terms.now) }
{
    for term in terms {
        if !is_bound(bound, term) {
            return false;
        }
    }
    true
}

// Whether the variables inside a term's function terms are bound.
fn is_called_bound(bound: &[u32], term: &Term) -> bool
    ensures { result ≡ has_all bound.now (called_variables_of term.now) }
{
    match term {
        Term::Var(_) => true,
        Term::Const(_) | Term::Call(..) => is_bound(bound, term),
    }
}

fn is_unbound_variable(bound: &[u32], term: &Term) -> bool
    ensures { result ≡ is_unbound_variable bound.now term.now }
{
    match term {
        Term::Var(var) => !has_variable(bound, *var),
        Term::Const(_) | Term::Call(..) => false,
    }
}
