//! The variables of terms and formulas, as lists in order of occurrence, with repeats.
ghost use Rattle.std.specs.Prelude.{◌≡◌, ◌++◌, [], ◌∷◌, map, IfOk, OnOk, if◌then◌else◌};
ghost use Rattle.std.specs.List.{flat_map};
ghost use Rattle.rif_tree.specs.Variables.{has_all, without, variables_of, slots_free};
ghost use Rattle.ready_order.specs.Arranging.{piece_of, free_in_pieces, occurring_in_pieces};

use rif_tree::{Formula, Term, has_variable};
use rif_values::OutOfMemory;
use sqlite_items::Items;
use std::alloc::Global;

/// Whether each of these variables is among some.
pub(crate) fn has_all(vars: &[u32], wanted: &[u32]) -> bool
    ensures { result ≡ has_all vars.now wanted.now }
{
    for var in wanted {
        if !has_variable(vars, *var) {
            return false;
        }
    }
    true
}

/// Puts a term's variables at the end.
#[cycle(variables)]
#[tactic(auto, using(rif_tree::proofs::CallerLemmas::variables_call))]
pub(crate) fn push_variables(vars: &mut Vec<u32>, term: &Term) -> Result<(), OutOfMemory>
    ensures { OnOk result (vars.new.items ≡ vars.old.items ++ variables_of term.now) }
{
    match term {
        Term::Const(_) => Ok(()),
        Term::Var(var) => {
            vars.push(*var)?;
            Ok(())
        }
        Term::Call(_, arguments) => push_each_variables(vars, arguments.as_slice()),
    }
}

/// Puts the variables of some terms at the end.
#[cycle(variables)]
pub(crate) fn push_each_variables(vars: &mut Vec<u32>, terms: &[Term]) -> Result<(), OutOfMemory>
    ensures { OnOk result (vars.new.items ≡ vars.old.items ++ flat_map variables_of terms.now) }
{
    for term in terms {
        push_variables(vars, term)?;
    }
    Ok(())
}

/// Puts the variables of two terms at the end.
pub(crate) fn push_both(vars: &mut Vec<u32>, left: &Term, right: &Term) -> Result<(), OutOfMemory>
    ensures { OnOk result (vars.new.items ≡ vars.old.items ++ (variables_of left.now ++ variables_of right.now)) }
{
    push_variables(vars, left)?;
    push_variables(vars, right)
}

/// Puts the variables of a frame at the end, slot by slot: its object's come with each.
pub(crate) fn push_frame(
    vars: &mut Vec<u32>,
    object: &Term,
    pairs: &[(Term, Term)],
) -> Result<(), OutOfMemory>
    ensures { OnOk result (vars.new.items ≡ vars.old.items ++ slots_free object.now pairs.now) }
{
    for pair in pairs {
        push_variables(vars, object)?;
        push_both(vars, &pair.0, &pair.1)?;
    }
    Ok(())
}

/// Puts a formula's free variables at the end.
#[cycle(free)]
#[tactic(auto, using(crate::proofs::PieceLemmas::piece_and, crate::proofs::PieceLemmas::piece_or))]
pub(crate) fn push_free(
    alloc: Global,
    vars: &mut Vec<u32>,
    formula: &Formula,
) -> Result<(), OutOfMemory>
    ensures { OnOk result (vars.new.items ≡ vars.old.items ++ (piece_of formula.now).free) }
{
    match formula {
        Formula::And(members) => push_each_free(alloc, vars, members.as_slice()),
        Formula::Or(branches) => push_each_free(alloc, vars, branches.as_slice()),
        Formula::Not(inner) => push_free(alloc, vars, inner.get()),
        Formula::Exists(declared, inner) => {
            let mut inside = Vec::new(alloc);
            push_free(alloc, &mut inside, inner.get())?;
            push_without(vars, declared.as_slice(), inside.as_slice())
        }
        Formula::Equal(left, right) => push_both(vars, left, right),
        Formula::Member(object, class) => push_both(vars, object, class),
        Formula::Frame(object, pairs) => push_frame(vars, object, pairs.as_slice()),
        Formula::Atom(_, terms) => push_each_variables(vars, terms.as_slice()),
        Formula::Holds(_, terms) => push_each_variables(vars, terms.as_slice()),
    }
}

/// Puts the free variables of some formulas at the end.
#[cycle(free)]
pub(crate) fn push_each_free(
    alloc: Global,
    vars: &mut Vec<u32>,
    formulas: &[Formula],
) -> Result<(), OutOfMemory>
    ensures { OnOk result (vars.new.items ≡ vars.old.items ++ free_in_pieces (map piece_of formulas.now)) }
{
    for formula in formulas {
        push_free(alloc, vars, formula)?;
    }
    Ok(())
}

fn push_without(vars: &mut Vec<u32>, declared: &[u32], inside: &[u32]) -> Result<(), OutOfMemory>
    ensures { OnOk result (vars.new.items ≡ vars.old.items ++ without declared.now inside.now) }
{
    for var in inside {
        push_unless(vars, *var, has_variable(declared, *var))?;
    }
    Ok(())
}

fn push_unless(vars: &mut Vec<u32>, var: u32, is_declared: bool) -> Result<(), OutOfMemory>
    ensures { OnOk result (vars.new.items ≡ vars.old.items ++ (if is_declared then [] else var ∷ [])) }
{
    if !is_declared {
        vars.push(var)?;
    }
    Ok(())
}

/// A formula's free variables.
pub(crate) fn free_in(alloc: Global, formula: &Formula) -> Result<Items<u32>, OutOfMemory>
    ensures { IfOk result (λ vars. vars ≡ (piece_of formula.now).free) }
{
    let mut vars = Vec::new(alloc);
    push_free(alloc, &mut vars, formula)?;
    Ok(Items::from_vec(vars))
}

/// The free variables of some formulas.
pub(crate) fn free_in_each(alloc: Global, formulas: &[Formula]) -> Result<Items<u32>, OutOfMemory>
    ensures { IfOk result (λ vars. vars ≡ free_in_pieces (map piece_of formulas.now)) }
{
    let mut vars = Vec::new(alloc);
    push_each_free(alloc, &mut vars, formulas)?;
    Ok(Items::from_vec(vars))
}

/// Whether all free variables of a formula are bound.
pub(crate) fn is_closed(
    alloc: Global,
    bound: &[u32],
    formula: &Formula,
) -> Result<bool, OutOfMemory>
    ensures { IfOk result (λ closed. closed ≡ has_all bound.now (piece_of formula.now).free) }
{
    let free = free_in(alloc, formula)?;
    Ok(has_all(bound, free.as_slice()))
}

/// Whether all these variables are bound behind a branch.
pub(crate) fn binds_all(
    alloc: Global,
    bound: &[u32],
    all: &[u32],
    branch: &Formula,
) -> Result<bool, OutOfMemory>
    ensures { IfOk result (λ binds. binds ≡ has_all (bound.now ++ (piece_of branch.now).free) all.now) }
{
    let mut held = bound.to_vec(alloc)?;
    push_free(alloc, &mut held, branch)?;
    Ok(has_all(held.as_slice(), all))
}

/// Puts the variables that occur in a formula at the end, those that an `Exists` declares among them.
#[cycle(occurring)]
#[tactic(auto, using(crate::proofs::PieceLemmas::piece_and, crate::proofs::PieceLemmas::piece_or))]
fn push_occurring(vars: &mut Vec<u32>, formula: &Formula) -> Result<(), OutOfMemory>
    ensures { OnOk result (vars.new.items ≡ vars.old.items ++ (piece_of formula.now).occurring) }
{
    match formula {
        Formula::And(members) => push_each_occurring(vars, members.as_slice()),
        Formula::Or(branches) => push_each_occurring(vars, branches.as_slice()),
        Formula::Not(inner) => push_occurring(vars, inner.get()),
        Formula::Exists(_, inner) => push_occurring(vars, inner.get()),
        Formula::Equal(left, right) => push_both(vars, left, right),
        Formula::Member(object, class) => push_both(vars, object, class),
        Formula::Frame(object, pairs) => push_frame(vars, object, pairs.as_slice()),
        Formula::Atom(_, terms) => push_each_variables(vars, terms.as_slice()),
        Formula::Holds(_, terms) => push_each_variables(vars, terms.as_slice()),
    }
}

/// Puts the variables that occur in some formulas at the end.
#[cycle(occurring)]
pub(crate) fn push_each_occurring(
    vars: &mut Vec<u32>,
    formulas: &[Formula],
) -> Result<(), OutOfMemory>
    ensures { OnOk result (vars.new.items ≡ vars.old.items ++ occurring_in_pieces (map piece_of formulas.now)) }
{
    for formula in formulas {
        push_occurring(vars, formula)?;
    }
    Ok(())
}
