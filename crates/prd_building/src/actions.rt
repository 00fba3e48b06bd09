//! Actions and declarations, and lists of them.
ghost use Rattle.std.specs.Prelude.{◌≡◌, drop, IfOk};
ghost use Rattle.prd_building.specs.Building.{with_rest, targeted_at, atom_at, target_at, retracted_at, retract_at};
ghost use Rattle.prd_building.specs.Building.{assert_at, modify_at, action_at, actions_at, slot_at, decl_at};
ghost use Rattle.prd_building.specs.Building.{decls_at};

use crate::signs::{
    ActionSign, TailSign, action_sign, begins_new, closes, const_width, constant_at, ends_decls,
    is_atom, past, tail_sign, variable_at,
};
use crate::terms::{pairs, term, terms};
use prd_grammar::Leaf;
use rif_tree::{Action, Decl, Target, Term};
use rif_values::{OutOfMemory, Text};
use sqlite_items::Items;
use std::alloc::Global;

// The target that goes on at a place behind its first term.
fn targeted(
    alloc: Global,
    names: &[Text],
    leaves: &[Leaf],
    object: Term,
    at: usize,
    left: usize,
) -> Result<Option<(Target, usize)>, OutOfMemory>
    ensures { IfOk result (λ o. with_rest leaves.now o ≡ targeted_at names.now left object (drop at leaves.now)) }
{
    match tail_sign(leaves, at) {
        TailSign::Member => match term(alloc, names, leaves, past(leaves, at, 1), left)? {
            None => Ok(None),
            Some((class, end)) => Ok(Some((Target::Member(object, class), end))),
        },
        TailSign::Pairs => match pairs(alloc, names, leaves, past(leaves, at, 1), left)? {
            None => Ok(None),
            Some((slots, end)) => Ok(Some((Target::Frame(object, slots), past(leaves, end, 1)))),
        },
        _ => Ok(None),
    }
}

// The target of a name that stands at a place, with its arguments.
fn atom(
    alloc: Global,
    names: &[Text],
    leaves: &[Leaf],
    at: usize,
    left: usize,
) -> Result<Option<(Target, usize)>, OutOfMemory>
    ensures { IfOk result (λ o. with_rest leaves.now o ≡ atom_at names.now left (drop at leaves.now)) }
{
    let open = past(leaves, at, const_width(leaves, at));
    match terms(alloc, names, leaves, past(leaves, open, 1), left)? {
        None => Ok(None),
        Some((arguments, end)) => {
            let name = constant_at(alloc, leaves, at)?;
            Ok(Some((Target::Atom(name, arguments), past(leaves, end, 1))))
        }
    }
}

fn target(
    alloc: Global,
    names: &[Text],
    leaves: &[Leaf],
    at: usize,
    left: usize,
) -> Result<Option<(Target, usize)>, OutOfMemory>
    ensures { IfOk result (λ o. with_rest leaves.now o ≡ target_at names.now left (drop at leaves.now)) }
{
    if is_atom(leaves, at) {
        let found = atom(alloc, names, leaves, at, left)?;
        return Ok(found);
    }
    match term(alloc, names, leaves, at, left)? {
        None => Ok(None),
        Some((object, next)) => {
            let found = targeted(alloc, names, leaves, object, next, left)?;
            Ok(found)
        }
    }
}

// What goes on at a place behind the first term in the brackets of `Retract`.
fn retracted(
    alloc: Global,
    names: &[Text],
    leaves: &[Leaf],
    object: Term,
    at: usize,
    left: usize,
) -> Result<Option<(Action, usize)>, OutOfMemory>
    ensures { IfOk result (λ o. with_rest leaves.now o ≡ retracted_at names.now left object (drop at leaves.now)) }
{
    match tail_sign(leaves, at) {
        TailSign::Close => Ok(Some((Action::RetractObject(object), past(leaves, at, 1)))),
        TailSign::Other => match term(alloc, names, leaves, at, left)? {
            None => Ok(None),
            Some((slot, end)) => {
                Ok(Some((Action::RetractSlot(object, slot), past(leaves, end, 1))))
            }
        },
        _ => match targeted(alloc, names, leaves, object, at, left)? {
            None => Ok(None),
            Some((target, end)) => Ok(Some((Action::Retract(target), past(leaves, end, 1)))),
        },
    }
}

// What stands in the brackets of `Retract`.
fn retract(
    alloc: Global,
    names: &[Text],
    leaves: &[Leaf],
    at: usize,
    left: usize,
) -> Result<Option<(Action, usize)>, OutOfMemory>
    ensures { IfOk result (λ o. with_rest leaves.now o ≡ retract_at names.now left (drop at leaves.now)) }
{
    if is_atom(leaves, at) {
        return match atom(alloc, names, leaves, at, left)? {
            None => Ok(None),
            Some((target, end)) => Ok(Some((Action::Retract(target), past(leaves, end, 1)))),
        };
    }
    match term(alloc, names, leaves, at, left)? {
        None => Ok(None),
        Some((object, next)) => {
            let found = retracted(alloc, names, leaves, object, next, left)?;
            Ok(found)
        }
    }
}

fn assert(
    alloc: Global,
    names: &[Text],
    leaves: &[Leaf],
    at: usize,
    left: usize,
) -> Result<Option<(Action, usize)>, OutOfMemory>
    ensures { IfOk result (λ o. with_rest leaves.now o ≡ assert_at names.now left (drop at leaves.now)) }
{
    match target(alloc, names, leaves, at, left)? {
        None => Ok(None),
        Some((target, end)) => Ok(Some((Action::Assert(target), past(leaves, end, 1)))),
    }
}

fn modify(
    alloc: Global,
    names: &[Text],
    leaves: &[Leaf],
    at: usize,
    left: usize,
) -> Result<Option<(Action, usize)>, OutOfMemory>
    ensures { IfOk result (λ o. with_rest leaves.now o ≡ modify_at names.now left (drop at leaves.now)) }
{
    match term(alloc, names, leaves, at, left)? {
        None => Ok(None),
        Some((object, open)) => match pairs(alloc, names, leaves, past(leaves, open, 1), left)? {
            None => Ok(None),
            Some((slots, end)) => Ok(Some((Action::Modify(object, slots), past(leaves, end, 2)))),
        },
    }
}

fn action(
    alloc: Global,
    names: &[Text],
    leaves: &[Leaf],
    at: usize,
    left: usize,
) -> Result<Option<(Action, usize)>, OutOfMemory>
    ensures { IfOk result (λ o. with_rest leaves.now o ≡ action_at names.now left (drop at leaves.now)) }
{
    let inside = past(leaves, at, 2);
    match action_sign(leaves, at) {
        ActionSign::Assert => {
            let found = assert(alloc, names, leaves, inside, left)?;
            Ok(found)
        }
        ActionSign::Retract => {
            let found = retract(alloc, names, leaves, inside, left)?;
            Ok(found)
        }
        ActionSign::Modify => {
            let found = modify(alloc, names, leaves, inside, left)?;
            Ok(found)
        }
    }
}

/// The actions from a place up to a bracket that closes, and its place.
pub fn actions(
    alloc: Global,
    names: &[Text],
    leaves: &[Leaf],
    from: usize,
    most: usize,
) -> Result<Option<(Items<Action>, usize)>, OutOfMemory>
    ensures { IfOk result (λ o. with_rest leaves.now o ≡ actions_at names.now most (drop from leaves.now)) }
{
    let mut all = Items::new(alloc);
    let mut at = from;
    let mut left = most;
    while left > 0 {
        left -= 1;
        if closes(leaves, at) {
            return Ok(Some((all, at)));
        }
        match action(alloc, names, leaves, at, most)? {
            None => return Ok(None),
            Some((one, next)) => {
                all.push(one)?;
                at = next;
            }
        }
    }
    Ok(None)
}

// The declaration of a variable by a slot, whose object stands at a place.
fn slot(
    alloc: Global,
    names: &[Text],
    leaves: &[Leaf],
    var: u32,
    at: usize,
    left: usize,
) -> Result<Option<(Decl, usize)>, OutOfMemory>
    ensures { IfOk result (λ o. with_rest leaves.now o ≡ slot_at names.now left var (drop at leaves.now)) }
{
    match term(alloc, names, leaves, at, left)? {
        None => Ok(None),
        Some((object, open)) => match term(alloc, names, leaves, past(leaves, open, 1), left)? {
            None => Ok(None),
            Some((slot, end)) => {
                let decl = Decl::Slot { var, object, slot };
                Ok(Some((decl, past(leaves, end, 4))))
            }
        },
    }
}

fn decl(
    alloc: Global,
    names: &[Text],
    leaves: &[Leaf],
    at: usize,
    left: usize,
) -> Result<Option<(Decl, usize)>, OutOfMemory>
    ensures { IfOk result (λ o. with_rest leaves.now o ≡ decl_at names.now left (drop at leaves.now)) }
{
    let var = variable_at(names, leaves, past(leaves, at, 1))?;
    let behind = past(leaves, at, 2);
    if begins_new(leaves, behind) {
        return Ok(Some((Decl::New { var }, past(leaves, at, 6))));
    }
    let found = slot(alloc, names, leaves, var, behind, left)?;
    Ok(found)
}

/// The declarations from a place on, and the place behind them.
pub fn decls(
    alloc: Global,
    names: &[Text],
    leaves: &[Leaf],
    from: usize,
    most: usize,
) -> Result<Option<(Items<Decl>, usize)>, OutOfMemory>
    ensures { IfOk result (λ o. with_rest leaves.now o ≡ decls_at names.now most (drop from leaves.now)) }
{
    let mut all = Items::new(alloc);
    let mut at = from;
    let mut left = most;
    while left > 0 {
        left -= 1;
        if ends_decls(leaves, at) {
            return Ok(Some((all, at)));
        }
        match decl(alloc, names, leaves, at, most)? {
            None => return Ok(None),
            Some((one, next)) => {
                all.push(one)?;
                at = next;
            }
        }
    }
    Ok(None)
}
