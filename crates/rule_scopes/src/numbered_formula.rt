//! Formulas with numbers. `declared` has all variables that were declared before, each at the place of its number.
ghost use Rattle.std.specs.Prelude.{◌≡◌, ◌++◌, IfOk, OnOk, map, length};
ghost use Rattle.std.specs.List.{flat_map};
ghost use Rattle.rule_scopes.specs.Numbering.{numbering_of, declared_in, each_form};

use crate::naming::{Naming, namings_from, numbers_of, scope_inside};
use crate::numbered_term::{numbered_pairs, numbered_term, numbered_terms};
use rif_tree::Formula;
use rif_values::OutOfMemory;
use sqlite_items::{Boxed, Items};
use std::alloc::Global;

/// The number that is given next. Past `u32::MAX` there is no memory for it.
pub fn next_number(declared: &[u32]) -> Result<u32, OutOfMemory>
    ensures { IfOk result (λ next. next ≡ length declared.now) }
{
    u32::try_from(declared.len()).map_err(|_| OutOfMemory)
}

/// A formula with numbers.
#[cycle(formula)]
#[tactic(auto, using(crate::proofs::NumberingLemmas::numbers_at_forms))]
pub fn numbered_formula(
    alloc: Global,
    scope: &[Naming],
    declared: &mut Vec<u32>,
    formula: &Formula,
) -> Result<Formula, OutOfMemory>
    ensures formula { IfOk result
        (λ made. made ≡ (numbering_of formula.now).form scope.now (length declared.old.items)) }
    ensures declared { OnOk result (declared.new.items ≡ declared.old.items ++ declared_in formula.now) }
{
    match formula {
        Formula::And(members) => {
            let mut made = Vec::with_capacity(alloc, members.len())?;
            push_numbered(alloc, &mut made, scope, declared, members.as_slice())?;
            Ok(Formula::And(Items::from_vec(made)))
        }
        Formula::Or(branches) => {
            let mut made = Vec::with_capacity(alloc, branches.len())?;
            push_numbered(alloc, &mut made, scope, declared, branches.as_slice())?;
            Ok(Formula::Or(Items::from_vec(made)))
        }
        Formula::Not(inner) => {
            let inner = numbered_formula(alloc, scope, declared, inner.get())?;
            Ok(Formula::Not(Boxed::new(alloc, inner)?))
        }
        Formula::Exists(vars, inner) => {
            let next = next_number(declared.as_slice())?;
            let namings = namings_from(alloc, next, vars.as_slice())?;
            let inside = scope_inside(alloc, scope, namings.as_slice())?;
            declared.extend_from_slice(vars.as_slice())?;
            let inner = numbered_formula(alloc, inside.as_slice(), declared, inner.get())?;
            let numbers = numbers_of(alloc, namings.as_slice())?;
            Ok(Formula::Exists(numbers, Boxed::new(alloc, inner)?))
        }
        Formula::Equal(left, right) => Ok(Formula::Equal(
            numbered_term(alloc, scope, left)?,
            numbered_term(alloc, scope, right)?,
        )),
        Formula::Member(object, class) => Ok(Formula::Member(
            numbered_term(alloc, scope, object)?,
            numbered_term(alloc, scope, class)?,
        )),
        Formula::Frame(object, pairs) => Ok(Formula::Frame(
            numbered_term(alloc, scope, object)?,
            numbered_pairs(alloc, scope, pairs.as_slice())?,
        )),
        Formula::Atom(predicate, terms) => Ok(Formula::Atom(
            predicate.copy()?,
            numbered_terms(alloc, scope, terms.as_slice())?,
        )),
        Formula::Holds(pred, terms) => {
            Ok(Formula::Holds(*pred, numbered_terms(alloc, scope, terms.as_slice())?))
        }
    }
}

/// Appends each of some formulas with numbers.
#[cycle(formula)]
pub fn push_numbered(
    alloc: Global,
    made: &mut Vec<Formula>,
    scope: &[Naming],
    declared: &mut Vec<u32>,
    formulas: &[Formula],
) -> Result<(), OutOfMemory>
    ensures made { OnOk result (made.new.items ≡ made.old.items
        ++ each_form (map numbering_of formulas.now) scope.now (length declared.old.items)) }
    ensures declared { OnOk result (declared.new.items
        ≡ declared.old.items ++ flat_map declared_in formulas.now) }
{
    for formula in formulas {
        made.push(numbered_formula(alloc, scope, declared, formula)?)?;
    }
    Ok(())
}
