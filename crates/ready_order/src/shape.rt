//! Whether formulas have the shape of arranged conditions, so that they are their own conjuncts. The tests visit no
//! terms, and take no memory.
ghost use Rattle.std.specs.Prelude.{◌≡◌, map};
ghost use Rattle.std.specs.List.{list_all};
ghost use Rattle.ready_order.specs.Shapes.{Shape, has_one, shape_of};

use rif_tree::{Formula, Term};

// Whether a formula is a conjunct that stands alone.
#[cycle(shape)]
#[tactic(auto, using(crate::proofs::StayingLemmas::shape_at_forms))]
fn is_alone(formula: &Formula) -> bool
    ensures { result ≡ (shape_of formula.now).alone }
{
    match formula {
        Formula::And(_) => false,
        Formula::Or(branches) => are_together(branches.as_slice()),
        Formula::Not(inner) => is_together(inner.get()),
        Formula::Exists(_, inner) => is_together(inner.get()),
        Formula::Frame(_, pairs) => has_one(pairs.as_slice()),
        Formula::Equal(..) => true,
        Formula::Member(..) => true,
        Formula::Atom(..) => true,
        Formula::Holds(..) => true,
    }
}

/// Whether each of some formulas is a conjunct that stands alone.
#[cycle(shape)]
pub(crate) fn are_alone(formulas: &[Formula]) -> bool
    ensures { result ≡ list_all Shape.alone (map shape_of formulas.now) }
{
    for formula in formulas {
        if !is_alone(formula) {
            return false;
        }
    }
    true
}

// Whether a formula is an `And` of conjuncts that stand alone.
#[cycle(shape)]
#[tactic(auto, using(crate::proofs::StayingLemmas::shape_at_forms))]
fn is_together(formula: &Formula) -> bool
    ensures { result ≡ (shape_of formula.now).together }
{
    match formula {
        Formula::And(members) => are_alone(members.as_slice()),
        Formula::Or(_) => false,
        Formula::Not(_) => false,
        Formula::Exists(..) => false,
        Formula::Equal(..) => false,
        Formula::Member(..) => false,
        Formula::Frame(..) => false,
        Formula::Atom(..) => false,
        Formula::Holds(..) => false,
    }
}

#[cycle(shape)]
fn are_together(formulas: &[Formula]) -> bool
    ensures { result ≡ list_all Shape.together (map shape_of formulas.now) }
{
    for formula in formulas {
        if !is_together(formula) {
            return false;
        }
    }
    true
}

#[tactic(auto, using(crate::proofs::StayingLemmas::one_counted))]
fn has_one(pairs: &[(Term, Term)]) -> bool
    ensures { result ≡ has_one pairs.now }
{
    pairs.len() == 1
}
