//! Rules.
ghost use Rattle.std.specs.Prelude.{◌≡◌, drop, IfOk};
ghost use Rattle.prd_building.specs.Building.{with_rest, block_at, unconditional_at, conditional_at, body_at};
ghost use Rattle.prd_building.specs.Building.{such_at};
ghost use Rattle.prd_building.specs.Building.{level_behind, level_at, levels_at, parts_at, rule_of, rule_at};

use crate::actions::{actions, decls};
use crate::formulas::formula;
use crate::signs::{begins_if, begins_such, ends_levels, ends_such, past};
use crate::terms::vars;
use prd_grammar::Leaf;
use rif_tree::{Action, Decl, Formula, Level, Rule};
use rif_values::{OutOfMemory, Text};
use sqlite_items::Items;
use std::alloc::Global;

/// What a rule's levels are around: its `If` formula where it has one, and its block.
#[derive(Drop)]
pub struct Body {
    pub condition: Option<Formula>,
    pub decls: Items<Decl>,
    pub actions: Items<Action>,
}

// The block that stands at a place, behind `Do` `(`.
fn block(
    alloc: Global,
    names: &[Text],
    leaves: &[Leaf],
    at: usize,
    left: usize,
) -> Result<Option<((Items<Decl>, Items<Action>), usize)>, OutOfMemory>
    ensures { IfOk result (λ o. with_rest leaves.now o ≡ block_at names.now left (drop at leaves.now)) }
{
    match decls(alloc, names, leaves, at, left)? {
        None => Ok(None),
        Some((decls, next)) => match actions(alloc, names, leaves, next, left)? {
            None => Ok(None),
            Some((actions, end)) => Ok(Some(((decls, actions), past(leaves, end, 1)))),
        },
    }
}

fn unconditional(
    alloc: Global,
    names: &[Text],
    leaves: &[Leaf],
    at: usize,
    left: usize,
) -> Result<Option<(Body, usize)>, OutOfMemory>
    ensures { IfOk result (λ o. with_rest leaves.now o ≡ unconditional_at names.now left (drop at leaves.now)) }
{
    match block(alloc, names, leaves, at, left)? {
        None => Ok(None),
        Some(((decls, actions), end)) => {
            let body = Body {
                condition: None,
                decls,
                actions,
            };
            Ok(Some((body, end)))
        }
    }
}

// What stands behind `If`.
fn conditional(
    alloc: Global,
    names: &[Text],
    leaves: &[Leaf],
    at: usize,
    left: usize,
) -> Result<Option<(Body, usize)>, OutOfMemory>
    ensures { IfOk result (λ o. with_rest leaves.now o ≡ conditional_at names.now left (drop at leaves.now)) }
{
    match formula(alloc, names, leaves, at, left)? {
        None => Ok(None),
        Some((condition, then)) => match block(alloc, names, leaves, past(leaves, then, 3), left)? {
            None => Ok(None),
            Some(((decls, actions), end)) => {
                let body = Body {
                    condition: Some(condition),
                    decls,
                    actions,
                };
                Ok(Some((body, end)))
            }
        },
    }
}

fn innermost(
    alloc: Global,
    names: &[Text],
    leaves: &[Leaf],
    at: usize,
    left: usize,
) -> Result<Option<(Body, usize)>, OutOfMemory>
    ensures { IfOk result (λ o. with_rest leaves.now o ≡ body_at names.now left (drop at leaves.now)) }
{
    if begins_if(leaves, at) {
        let found = conditional(alloc, names, leaves, past(leaves, at, 1), left)?;
        return Ok(found);
    }
    let found = unconditional(alloc, names, leaves, past(leaves, at, 2), left)?;
    Ok(found)
}

// The formulas of `such that` from a place on, and the place of the inner rule's bracket.
fn such(
    alloc: Global,
    names: &[Text],
    leaves: &[Leaf],
    from: usize,
    most: usize,
) -> Result<Option<(Items<Formula>, usize)>, OutOfMemory>
    ensures { IfOk result (λ o. with_rest leaves.now o ≡ such_at names.now most (drop from leaves.now)) }
{
    let mut all = Items::new(alloc);
    let mut at = from;
    let mut left = most;
    while left > 0 {
        left -= 1;
        if ends_such(leaves, at) {
            return Ok(Some((all, at)));
        }
        match formula(alloc, names, leaves, at, most)? {
            None => return Ok(None),
            Some((one, next)) => {
                all.push(one)?;
                at = next;
            }
        }
    }
    Ok(None)
}

// The level whose `Forall` stands at a place, and the place behind the inner rule's bracket.
fn level(
    alloc: Global,
    names: &[Text],
    leaves: &[Leaf],
    at: usize,
    left: usize,
) -> Result<Option<(Level, usize)>, OutOfMemory>
    ensures { IfOk result (λ o. with_rest leaves.now o ≡ level_at names.now left (drop at leaves.now)) }
{
    match vars(alloc, names, leaves, past(leaves, at, 1), left)? {
        None => Ok(None),
        Some((vars, next)) => {
            let found = level_behind(alloc, names, leaves, vars, next, left)?;
            Ok(found)
        }
    }
}

// The level of these variables, which goes on at a place.
fn level_behind(
    alloc: Global,
    names: &[Text],
    leaves: &[Leaf],
    vars: Items<u32>,
    at: usize,
    left: usize,
) -> Result<Option<(Level, usize)>, OutOfMemory>
    ensures { IfOk result (λ o. with_rest leaves.now o ≡ level_behind names.now left vars (drop at leaves.now)) }
{
    if !begins_such(leaves, at) {
        let such_that = Items::new(alloc);
        return Ok(Some((Level { vars, such_that }, past(leaves, at, 1))));
    }
    match such(alloc, names, leaves, past(leaves, at, 2), left)? {
        None => Ok(None),
        Some((such_that, end)) => Ok(Some((Level { vars, such_that }, past(leaves, end, 1)))),
    }
}

// The levels from a place on, and the place of what they are around.
fn levels(
    alloc: Global,
    names: &[Text],
    leaves: &[Leaf],
    from: usize,
    most: usize,
) -> Result<Option<(Items<Level>, usize)>, OutOfMemory>
    ensures { IfOk result (λ o. with_rest leaves.now o ≡ levels_at names.now most (drop from leaves.now)) }
{
    let mut all = Items::new(alloc);
    let mut at = from;
    let mut left = most;
    while left > 0 {
        left -= 1;
        if ends_levels(leaves, at) {
            return Ok(Some((all, at)));
        }
        match level(alloc, names, leaves, at, most)? {
            None => return Ok(None),
            Some((one, next)) => {
                all.push(one)?;
                at = next;
            }
        }
    }
    Ok(None)
}

// The levels of the rule at a place, what they are around, and the place behind the rule.
fn parts(
    alloc: Global,
    names: &[Text],
    leaves: &[Leaf],
    at: usize,
    left: usize,
) -> Result<Option<((Items<Level>, Body), usize)>, OutOfMemory>
    ensures { IfOk result (λ o. with_rest leaves.now o ≡ parts_at names.now left (drop at leaves.now)) }
{
    match levels(alloc, names, leaves, at, left)? {
        None => Ok(None),
        Some((levels, inner)) => match innermost(alloc, names, leaves, inner, left)? {
            None => Ok(None),
            Some((body, end)) => {
                let behind = past(leaves, end, levels.len());
                Ok(Some(((levels, body), behind)))
            }
        },
    }
}

/// The rule at a place, with these names, in a group of the priority; and the place behind it.
pub fn rule(
    alloc: Global,
    names: &[Text],
    leaves: &[Leaf],
    priority: i32,
    at: usize,
    left: usize,
) -> Result<Option<(Rule, usize)>, OutOfMemory>
    ensures { IfOk result (λ o. with_rest leaves.now o ≡ rule_at priority names.now left (drop at leaves.now)) }
{
    match parts(alloc, names, leaves, at, left)? {
        None => Ok(None),
        Some((parts, end)) => {
            let rule = made(alloc, names, priority, parts)?;
            Ok(Some((rule, end)))
        }
    }
}

// The rule of these parts. Its names are copied first, so that little is held while memory is asked for.
fn made(
    alloc: Global,
    names: &[Text],
    priority: i32,
    parts: (Items<Level>, Body),
) -> Result<Rule, OutOfMemory>
    ensures { IfOk result (λ rule. rule ≡ rule_of priority names.now parts.0 parts.1) }
{
    let names = copied(alloc, names)?;
    let (levels, body) = parts;
    let Body {
        condition,
        decls,
        actions,
    } = body;
    Ok(Rule {
        priority,
        names,
        levels,
        condition,
        decls,
        actions,
    })
}

fn copied(alloc: Global, names: &[Text]) -> Result<Items<Text>, OutOfMemory>
    ensures { IfOk result (λ copy. copy ≡ names.now) }
{
    let mut all = Vec::new(alloc);
    for name in names {
        all.push(name.copy()?)?;
    }
    Ok(Items::from_vec(all))
}
