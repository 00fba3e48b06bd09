//! Terms, and lists of them.
ghost use Rattle.std.specs.Prelude.{◌≡◌, suc, drop, IfOk};
ghost use Rattle.prd_building.specs.Building.{with_rest, term_at, terms_at, pair_at, pairs_at, var_at, vars_at};

use crate::signs::{
    TermSign, closes, closes_square, const_width, constant_at, ends_vars, past, term_sign,
    variable_at,
};
use prd_grammar::Leaf;
use rif_tree::Term;
use rif_values::{OutOfMemory, Text};
use sqlite_items::Items;
use std::alloc::Global;

/// The term at a place, and the place behind it.
#[cycle(term)]
pub fn term(
    alloc: Global,
    names: &[Text],
    leaves: &[Leaf],
    at: usize,
    left: usize,
) -> Result<Option<(Term, usize)>, OutOfMemory>
    ensures { IfOk result (λ o. with_rest leaves.now o ≡ term_at names.now left (drop at leaves.now)) }
{
    if left == 0 {
        return Ok(None);
    }
    let found = term_within(alloc, names, leaves, at, left - 1)?;
    Ok(found)
}

// The term at a place, with so many steps for what is in it.
#[cycle(term)]
fn term_within(
    alloc: Global,
    names: &[Text],
    leaves: &[Leaf],
    at: usize,
    left: usize,
) -> Result<Option<(Term, usize)>, OutOfMemory>
    ensures { IfOk result (λ o. with_rest leaves.now o ≡ term_at names.now (suc left) (drop at leaves.now)) }
{
    match term_sign(leaves, at) {
        TermSign::Variable => {
            let place = variable_at(names, leaves, at)?;
            Ok(Some((Term::Var(place), past(leaves, at, 1))))
        }
        TermSign::Call(func) => match terms(alloc, names, leaves, past(leaves, at, 4), left)? {
            None => Ok(None),
            Some((arguments, end)) => {
                Ok(Some((Term::Call(func, arguments), past(leaves, end, 2))))
            }
        },
        TermSign::Constant => {
            let constant = constant_at(alloc, leaves, at)?;
            let width = const_width(leaves, at);
            Ok(Some((Term::Const(constant), past(leaves, at, width))))
        }
    }
}

/// The terms from a place up to a bracket that closes, and its place.
#[cycle(term)]
pub fn terms(
    alloc: Global,
    names: &[Text],
    leaves: &[Leaf],
    from: usize,
    most: usize,
) -> Result<Option<(Items<Term>, usize)>, OutOfMemory>
    ensures { IfOk result (λ o. with_rest leaves.now o ≡ terms_at names.now most (drop from leaves.now)) }
{
    let mut all = Items::new(alloc);
    let mut at = from;
    let mut left = most;
    while left > 0 {
        left -= 1;
        if closes(leaves, at) {
            return Ok(Some((all, at)));
        }
        match term(alloc, names, leaves, at, most)? {
            None => return Ok(None),
            Some((one, next)) => {
                all.push(one)?;
                at = next;
            }
        }
    }
    Ok(None)
}

/// The pairs of a slot and its value from a place up to a square bracket that closes, and its place.
pub fn pairs(
    alloc: Global,
    names: &[Text],
    leaves: &[Leaf],
    from: usize,
    most: usize,
) -> Result<Option<(Items<(Term, Term)>, usize)>, OutOfMemory>
    ensures { IfOk result (λ o. with_rest leaves.now o ≡ pairs_at names.now most (drop from leaves.now)) }
{
    let mut all = Items::new(alloc);
    let mut at = from;
    let mut left = most;
    while left > 0 {
        left -= 1;
        if closes_square(leaves, at) {
            return Ok(Some((all, at)));
        }
        match pair(alloc, names, leaves, at, most)? {
            None => return Ok(None),
            Some((one, next)) => {
                all.push(one)?;
                at = next;
            }
        }
    }
    Ok(None)
}

fn pair(
    alloc: Global,
    names: &[Text],
    leaves: &[Leaf],
    at: usize,
    left: usize,
) -> Result<Option<((Term, Term), usize)>, OutOfMemory>
    ensures { IfOk result (λ o. with_rest leaves.now o ≡ pair_at names.now left (drop at leaves.now)) }
{
    match term(alloc, names, leaves, at, left)? {
        None => Ok(None),
        Some((slot, arrow)) => match term(alloc, names, leaves, past(leaves, arrow, 1), left)? {
            None => Ok(None),
            Some((value, end)) => Ok(Some(((slot, value), end))),
        },
    }
}

/// The places of the variables from a place on, and the place behind them.
pub fn vars(
    alloc: Global,
    names: &[Text],
    leaves: &[Leaf],
    from: usize,
    most: usize,
) -> Result<Option<(Items<u32>, usize)>, OutOfMemory>
    ensures { IfOk result (λ o. with_rest leaves.now o ≡ vars_at names.now most (drop from leaves.now)) }
{
    let mut all = Items::new(alloc);
    let mut at = from;
    let mut left = most;
    while left > 0 {
        left -= 1;
        if ends_vars(leaves, at) {
            return Ok(Some((all, at)));
        }
        match var(names, leaves, at)? {
            None => return Ok(None),
            Some((one, next)) => {
                all.push(one)?;
                at = next;
            }
        }
    }
    Ok(None)
}

fn var(names: &[Text], leaves: &[Leaf], at: usize) -> Result<Option<(u32, usize)>, OutOfMemory>
    ensures { IfOk result (λ o. with_rest leaves.now o ≡ var_at names.now (drop at leaves.now)) }
{
    let place = variable_at(names, leaves, at)?;
    Ok(Some((place, past(leaves, at, 1))))
}
