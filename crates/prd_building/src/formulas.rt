//! Formulas, and lists of them.
ghost use Rattle.std.specs.Prelude.{◌≡◌, suc, drop, IfOk};
ghost use Rattle.prd_building.specs.Building.{with_rest, vars_at, compared_at, compared_from, holds_at, named_at};
ghost use Rattle.prd_building.specs.Building.{existing, formula_at, formulas_at};

use crate::signs::{
    FormulaSign, TailSign, closes, const_width, constant_at, formula_sign, past, tail_sign,
};
use crate::terms::{pairs, term, terms, vars};
use prd_grammar::Leaf;
use rif_tree::{Formula, Pred, Term};
use rif_values::{OutOfMemory, Text};
use sqlite_items::{Boxed, Items};
use std::alloc::Global;

/// The formula at a place, and the place behind it.
#[cycle(formula)]
pub fn formula(
    alloc: Global,
    names: &[Text],
    leaves: &[Leaf],
    at: usize,
    left: usize,
) -> Result<Option<(Formula, usize)>, OutOfMemory>
    ensures { IfOk result (λ o. with_rest leaves.now o ≡ formula_at names.now left (drop at leaves.now)) }
{
    if left == 0 {
        return Ok(None);
    }
    let found = formula_within(alloc, names, leaves, at, left - 1)?;
    Ok(found)
}

// The formula at a place, with so many steps for what is in it.
#[cycle(formula)]
fn formula_within(
    alloc: Global,
    names: &[Text],
    leaves: &[Leaf],
    at: usize,
    left: usize,
) -> Result<Option<(Formula, usize)>, OutOfMemory>
    ensures { IfOk result (λ o. with_rest leaves.now o ≡ formula_at names.now (suc left) (drop at leaves.now)) }
{
    match formula_sign(leaves, at) {
        FormulaSign::And => match formulas(alloc, names, leaves, past(leaves, at, 2), left)? {
            None => Ok(None),
            Some((all, end)) => Ok(Some((Formula::And(all), past(leaves, end, 1)))),
        },
        FormulaSign::Or => match formulas(alloc, names, leaves, past(leaves, at, 2), left)? {
            None => Ok(None),
            Some((all, end)) => Ok(Some((Formula::Or(all), past(leaves, end, 1)))),
        },
        FormulaSign::Not => match formula(alloc, names, leaves, past(leaves, at, 2), left)? {
            None => Ok(None),
            Some((inner, end)) => {
                let inner = Boxed::new(alloc, inner)?;
                Ok(Some((Formula::Not(inner), past(leaves, end, 1))))
            }
        },
        FormulaSign::Grouped => match formula(alloc, names, leaves, past(leaves, at, 1), left)? {
            None => Ok(None),
            Some((inner, end)) => Ok(Some((inner, past(leaves, end, 1)))),
        },
        FormulaSign::Exists => {
            let found = exists(alloc, names, leaves, past(leaves, at, 1), left)?;
            Ok(found)
        }
        FormulaSign::Holds(pred) => {
            let found = holds(alloc, names, leaves, pred, past(leaves, at, 4), left)?;
            Ok(found)
        }
        FormulaSign::Atom => {
            let found = atom(alloc, names, leaves, at, left)?;
            Ok(found)
        }
        FormulaSign::Term => {
            let found = compared_from(alloc, names, leaves, at, left)?;
            Ok(found)
        }
    }
}

// The formula whose variables begin at a place.
#[cycle(formula)]
fn exists(
    alloc: Global,
    names: &[Text],
    leaves: &[Leaf],
    at: usize,
    left: usize,
) -> Result<Option<(Formula, usize)>, OutOfMemory>
    ensures { IfOk result (λ o. with_rest leaves.now o
        ≡ existing (formula_at names.now left) (vars_at names.now left (drop at leaves.now))) }
{
    match vars(alloc, names, leaves, at, left)? {
        None => Ok(None),
        Some((vars, open)) => match formula(alloc, names, leaves, past(leaves, open, 1), left)? {
            None => Ok(None),
            Some((inner, end)) => {
                let inner = Boxed::new(alloc, inner)?;
                Ok(Some((Formula::Exists(vars, inner), past(leaves, end, 1))))
            }
        },
    }
}

/// The formulas from a place up to a bracket that closes, and its place.
#[cycle(formula)]
fn formulas(
    alloc: Global,
    names: &[Text],
    leaves: &[Leaf],
    from: usize,
    most: usize,
) -> Result<Option<(Items<Formula>, usize)>, OutOfMemory>
    ensures { IfOk result (λ o. with_rest leaves.now o ≡ formulas_at names.now most (drop from leaves.now)) }
{
    let mut all = Items::new(alloc);
    let mut at = from;
    let mut left = most;
    while left > 0 {
        left -= 1;
        if closes(leaves, at) {
            return Ok(Some((all, at)));
        }
        match formula(alloc, names, leaves, at, most)? {
            None => return Ok(None),
            Some((one, next)) => {
                all.push(one)?;
                at = next;
            }
        }
    }
    Ok(None)
}

// The formula of a built-in predicate, whose arguments stand at a place.
fn holds(
    alloc: Global,
    names: &[Text],
    leaves: &[Leaf],
    pred: Pred,
    at: usize,
    left: usize,
) -> Result<Option<(Formula, usize)>, OutOfMemory>
    ensures { IfOk result (λ o. with_rest leaves.now o ≡ holds_at names.now left pred (drop at leaves.now)) }
{
    match terms(alloc, names, leaves, at, left)? {
        None => Ok(None),
        Some((arguments, end)) => {
            Ok(Some((Formula::Holds(pred, arguments), past(leaves, end, 2))))
        }
    }
}

// The formula of a name that stands at a place, with its arguments.
fn atom(
    alloc: Global,
    names: &[Text],
    leaves: &[Leaf],
    at: usize,
    left: usize,
) -> Result<Option<(Formula, usize)>, OutOfMemory>
    ensures { IfOk result (λ o. with_rest leaves.now o ≡ named_at names.now left (drop at leaves.now)) }
{
    let open = past(leaves, at, const_width(leaves, at));
    match terms(alloc, names, leaves, past(leaves, open, 1), left)? {
        None => Ok(None),
        Some((arguments, end)) => {
            let name = constant_at(alloc, leaves, at)?;
            Ok(Some((Formula::Atom(name, arguments), past(leaves, end, 1))))
        }
    }
}

// The formula whose first term stands at a place.
fn compared_from(
    alloc: Global,
    names: &[Text],
    leaves: &[Leaf],
    at: usize,
    left: usize,
) -> Result<Option<(Formula, usize)>, OutOfMemory>
    ensures { IfOk result (λ o. with_rest leaves.now o ≡ compared_from names.now left (drop at leaves.now)) }
{
    match term(alloc, names, leaves, at, left)? {
        None => Ok(None),
        Some((first, next)) => {
            let found = compared(alloc, names, leaves, first, next, left)?;
            Ok(found)
        }
    }
}

// The formula that goes on at a place behind its first term.
fn compared(
    alloc: Global,
    names: &[Text],
    leaves: &[Leaf],
    first: Term,
    at: usize,
    left: usize,
) -> Result<Option<(Formula, usize)>, OutOfMemory>
    ensures { IfOk result (λ o. with_rest leaves.now o ≡ compared_at names.now left first (drop at leaves.now)) }
{
    match tail_sign(leaves, at) {
        TailSign::Equal => match term(alloc, names, leaves, past(leaves, at, 1), left)? {
            None => Ok(None),
            Some((second, end)) => Ok(Some((Formula::Equal(first, second), end))),
        },
        TailSign::Member => match term(alloc, names, leaves, past(leaves, at, 1), left)? {
            None => Ok(None),
            Some((class, end)) => Ok(Some((Formula::Member(first, class), end))),
        },
        TailSign::Pairs => match pairs(alloc, names, leaves, past(leaves, at, 1), left)? {
            None => Ok(None),
            Some((slots, end)) => Ok(Some((Formula::Frame(first, slots), past(leaves, end, 1)))),
        },
        _ => Ok(None),
    }
}
