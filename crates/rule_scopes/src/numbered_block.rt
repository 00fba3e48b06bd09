//! Blocks with numbers. `declared` has all variables that were declared before, each at the place of its number.
ghost use Rattle.std.specs.Prelude.{◌≡◌, ◌++◌, IfOk, OnOk, map, length};
ghost use Rattle.safe_rules.specs.BlockScope.{decl_variable};
ghost use Rattle.rule_scopes.specs.Numbering.{namings_from, numbered_decl, numbered_decls};
ghost use Rattle.rule_scopes.specs.Numbering.{numbered_target, numbered_action};

use crate::naming::Naming;
use crate::numbered_formula::next_number;
use crate::numbered_term::{numbered_pairs, numbered_term, numbered_terms};
use rif_tree::{Action, Decl, Target};
use rif_values::OutOfMemory;
use sqlite_items::Items;
use std::alloc::Global;

fn decl_variable(decl: &Decl) -> u32
    ensures { result ≡ decl_variable decl.now }
{
    match decl {
        Decl::Slot {
            var,
            object: _,
            slot: _,
        } => *var,
        Decl::New { var } => *var,
    }
}

// The declaration with numbers, of which its own variable has `next`.
fn numbered_decl(
    alloc: Global,
    scope: &[Naming],
    next: u32,
    decl: &Decl,
) -> Result<Decl, OutOfMemory>
    ensures { IfOk result (λ made. made ≡ numbered_decl scope.now next decl.now) }
{
    match decl {
        Decl::Slot {
            var: _,
            object,
            slot,
        } => Ok(Decl::Slot {
            var: next,
            object: numbered_term(alloc, scope, object)?,
            slot: numbered_term(alloc, scope, slot)?,
        }),
        Decl::New { var: _ } => Ok(Decl::New { var: next }),
    }
}

/// The declarations of a block with numbers. What they declare is added to what holds.
#[tactic(auto, using(crate::proofs::NumberingLemmas::one_longer))]
pub fn numbered_decls(
    alloc: Global,
    scope: &mut Vec<Naming>,
    declared: &mut Vec<u32>,
    decls: &[Decl],
) -> Result<Items<Decl>, OutOfMemory>
    ensures decls { IfOk result
        (λ made. made ≡ numbered_decls scope.old.items (length declared.old.items) decls.now) }
    ensures scope { OnOk result (scope.new.items
        ≡ scope.old.items ++ namings_from (length declared.old.items) (map decl_variable decls.now)) }
    ensures declared { OnOk result (declared.new.items ≡ declared.old.items ++ map decl_variable decls.now) }
{
    let mut all = Vec::with_capacity(alloc, decls.len())?;
    for decl in decls {
        let next = next_number(declared.as_slice())?;
        all.push(numbered_decl(alloc, scope.as_slice(), next, decl)?)?;
        let var = decl_variable(decl);
        scope.push(Naming { var, number: next })?;
        declared.push(var)?;
    }
    Ok(Items::from_vec(all))
}

/// The actions of a block with numbers.
pub fn numbered_actions(
    alloc: Global,
    scope: &[Naming],
    actions: &[Action],
) -> Result<Items<Action>, OutOfMemory>
    ensures { IfOk result (λ made. made ≡ map (numbered_action scope.now) actions.now) }
{
    let mut all = Vec::with_capacity(alloc, actions.len())?;
    for action in actions {
        all.push(numbered_action(alloc, scope, action)?)?;
    }
    Ok(Items::from_vec(all))
}

fn numbered_action(alloc: Global, scope: &[Naming], action: &Action) -> Result<Action, OutOfMemory>
    ensures { IfOk result (λ made. made ≡ numbered_action scope.now action.now) }
{
    match action {
        Action::Assert(target) => Ok(Action::Assert(numbered_target(alloc, scope, target)?)),
        Action::Retract(target) => Ok(Action::Retract(numbered_target(alloc, scope, target)?)),
        Action::RetractSlot(object, slot) => Ok(Action::RetractSlot(
            numbered_term(alloc, scope, object)?,
            numbered_term(alloc, scope, slot)?,
        )),
        Action::RetractObject(object) => {
            Ok(Action::RetractObject(numbered_term(alloc, scope, object)?))
        }
        Action::Modify(object, pairs) => Ok(Action::Modify(
            numbered_term(alloc, scope, object)?,
            numbered_pairs(alloc, scope, pairs.as_slice())?,
        )),
    }
}

fn numbered_target(alloc: Global, scope: &[Naming], target: &Target) -> Result<Target, OutOfMemory>
    ensures { IfOk result (λ made. made ≡ numbered_target scope.now target.now) }
{
    match target {
        Target::Atom(predicate, terms) => Ok(Target::Atom(
            predicate.copy()?,
            numbered_terms(alloc, scope, terms.as_slice())?,
        )),
        Target::Frame(object, pairs) => Ok(Target::Frame(
            numbered_term(alloc, scope, object)?,
            numbered_pairs(alloc, scope, pairs.as_slice())?,
        )),
        Target::Member(object, class) => Ok(Target::Member(
            numbered_term(alloc, scope, object)?,
            numbered_term(alloc, scope, class)?,
        )),
    }
}
