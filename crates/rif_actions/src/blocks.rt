//! Rules' blocks evaluated at a state of facts.
ghost use Rattle.std.specs.Prelude.{◌≡◌, ◌≤◌, ◌^◌, ◌++◌, ◌∷◌, [], List, Some, IfOk, IfSome, OnOk};
ghost use Rattle.std.specs.Option.{option_map};
ghost use Rattle.rif_values.specs.declared.fact.Fact.{Fact};
ghost use Rattle.rif_values.specs.declared.fact.Fact.TheVariants.{Atom, Member};
ghost use Rattle.rif_values.specs.declared.change.Change.TheVariants.{RetractSlot, RetractObject};
ghost use Rattle.rif_tree.specs.declared.rule.Decl.TheVariants.{New};
ghost use Rattle.rif_builtins.specs.Values.{value_of, values_of};
ghost use Rattle.rif_actions.specs.Blocks.{of_both, least_value, after_decl, after_decls, slot_changes};
ghost use Rattle.rif_actions.specs.Blocks.{target_changes, action_changes, changes_of, block_in, block_of};
ghost use Rattle.rif_actions.specs.Uses.{fact_change, value_of_first, frame_change, slot_change, HasMadeAtMost};

use crate::changes::Block;
use crate::scope::Scope;
use crate::uses::{FactUse, FrameUse};
use rif_builtins::{value_in, values_in};
use rif_facts::{Facts, Key};
use rif_tree::{Action, Decl, Target, Term};
use rif_values::{Binding, Change, Const, Fact, Listed, OutOfMemory, Shared, pairs_with};
use safe_rules::SafeRule;
use std::alloc::Global;

// How many objects can be made at most.
const GREATEST_MADE: u64 = 1 << 63;

/// The block of a rule for a row at a state of facts, where this many objects were made before.
///
/// A declared slot costs as much as the logarithm of the number of facts, and the number of the slot's values.
///
/// Source: RIF-PRD, "Action blocks" and "Operational semantics of atomic actions"; the objects that `New`
/// makes, the least value of a declared slot and void blocks are our own (docs/PROFILE.md, "Actions").
pub fn block(
    alloc: Global,
    rule: &SafeRule,
    row: &Binding,
    facts: &Facts,
    made: u64,
) -> Result<Block, OutOfMemory>
    requires { made ≤ 2 ^ 63 }
    ensures block { IfOk result (λ block. block ≡ block_of rule.now row.now facts.now.list made) }
    ensures made { IfOk result (HasMadeAtMost (2 ^ 63)) }
{
    let start = Scope {
        row: Listed::from_vec(row.pairs().to_vec(alloc)?),
        made,
    };
    match scope_after(alloc, facts, rule.decls.as_slice(), start)? {
        Some(scope) => block_of_actions(alloc, rule.actions.as_slice(), &scope),
        None => Ok(Block::Void),
    }
}

fn block_of_actions(alloc: Global, actions: &[Action], scope: &Scope) -> Result<Block, OutOfMemory>
    requires { scope.now.made ≤ 2 ^ 63 }
    ensures block { IfOk result (λ block. block ≡ block_in actions.now (Some scope.now)) }
    ensures made { IfOk result (HasMadeAtMost (2 ^ 63)) }
{
    match changes(alloc, scope.row.as_slice(), actions)? {
        Some(list) => Ok(Block::Changes {
            list,
            made: scope.made,
        }),
        None => Ok(Block::Void),
    }
}

// The scope after some declarations.
fn scope_after(
    alloc: Global,
    facts: &Facts,
    decls: &[Decl],
    start: Scope,
) -> Result<Option<Scope>, OutOfMemory>
    requires { start.made ≤ 2 ^ 63 }
    ensures scope { IfOk result (λ found. found ≡ after_decls facts.now.list decls.now start) }
    ensures made { IfOk result (λ found. IfSome found (λ scope. scope.made ≤ 2 ^ 63)) }
{
    let mut scope = start;
    for decl in decls {
        match scope_after_one(alloc, facts, decl, &scope)? {
            Some(next) => scope = next,
            None => return Ok(None),
        }
    }
    Ok(Some(scope))
}

fn scope_after_one(
    alloc: Global,
    facts: &Facts,
    decl: &Decl,
    scope: &Scope,
) -> Result<Option<Scope>, OutOfMemory>
    requires { scope.now.made ≤ 2 ^ 63 }
    ensures scope { IfOk result (λ found. found ≡ after_decl facts.now.list decl.now scope.now) }
    ensures made { IfOk result (λ found. IfSome found (λ next. next.made ≤ 2 ^ 63)) }
{
    match decl {
        Decl::Slot { var, object, slot } => {
            match slot_of(alloc, facts, scope.row.as_slice(), object, slot)? {
                Some(constant) => Ok(Some(Scope {
                    row: pairs_with(alloc, scope.row.as_slice(), *var, &constant)?,
                    made: scope.made,
                })),
                None => Ok(None),
            }
        }
        Decl::New { var } => scope_with_object(alloc, *var, scope),
    }
}

fn scope_with_object(alloc: Global, var: u32, scope: &Scope) -> Result<Option<Scope>, OutOfMemory>
    requires { scope.now.made ≤ 2 ^ 63 }
    ensures scope { IfOk result (λ found. (w : List Fact) → found ≡ after_decl w (New var) scope.now) }
    ensures made { IfOk result (λ found. IfSome found (λ next. next.made ≤ 2 ^ 63)) }
{
    if scope.made < GREATEST_MADE {
        let object = Const::Fresh(scope.made);
        return Ok(Some(Scope {
            row: pairs_with(alloc, scope.row.as_slice(), var, &object)?,
            made: scope.made + 1,
        }));
    }
    Ok(None)
}

// The least value of the slot that two terms name.
fn slot_of(
    alloc: Global,
    facts: &Facts,
    row: &[(u32, Const)],
    object: &Term,
    slot: &Term,
) -> Result<Option<Const>, OutOfMemory>
    ensures { IfOk result (λ found. found
        ≡ of_both (value_of row.now object.now) (value_of row.now slot.now) (least_value facts.now.list)) }
{
    match value_in(alloc, row, object)? {
        Some(of) => match value_in(alloc, row, slot)? {
            Some(at) => least_of_slot(alloc, facts, of, at),
            None => Ok(None),
        },
        None => Ok(None),
    }
}

// The frames of one object and slot stand in order of their values, so that the first has the least.
fn least_of_slot(
    alloc: Global,
    facts: &Facts,
    object: Const,
    slot: Const,
) -> Result<Option<Const>, OutOfMemory>
    ensures { IfOk result (λ found. found ≡ least_value facts.now.list object slot) }
{
    let frames = facts.candidates(alloc, &Key::ObjectSlot(object, slot))?;
    value_of_first(frames.as_slice())
}

// The value of the first of some frames.
fn value_of_first(frames: &[Fact]) -> Result<Option<Const>, OutOfMemory>
    ensures { IfOk result (λ found. found ≡ value_of_first frames.now) }
{
    match frames.first() {
        Some(Fact::Frame(_, _, value)) => Ok(Some(value.copy()?)),
        _ => Ok(None),
    }
}

// The changes of some actions, where every term has a value.
fn changes(
    alloc: Global,
    row: &[(u32, Const)],
    actions: &[Action],
) -> Result<Option<Listed<Change>>, OutOfMemory>
    ensures { IfOk result (λ found. found ≡ changes_of row.now actions.now) }
{
    let mut list = Vec::new(alloc);
    for action in actions {
        match changes_of_action(alloc, row, action)? {
            Some(more) => append(&mut list, more)?,
            None => return Ok(None),
        }
    }
    Ok(Some(Listed::from_vec(list)))
}

fn append(list: &mut Vec<Change>, more: Listed<Change>) -> Result<(), OutOfMemory>
    ensures { OnOk result (list.new.items ≡ list.old.items ++ more) }
{
    let mut more = more.into_vec();
    list.append(&mut more)?;
    Ok(())
}

fn changes_of_action(
    alloc: Global,
    row: &[(u32, Const)],
    action: &Action,
) -> Result<Option<Listed<Change>>, OutOfMemory>
    ensures { IfOk result (λ found. found ≡ action_changes row.now action.now) }
{
    match action {
        Action::Assert(target) => changes_of_target(alloc, FactUse::Assert, row, target),
        Action::Retract(target) => changes_of_target(alloc, FactUse::Retract, row, target),
        Action::RetractSlot(object, slot) => slot_retracted(alloc, row, object, slot),
        Action::RetractObject(object) => object_retracted(alloc, row, object),
        Action::Modify(object, pairs) => {
            changes_of_slots(alloc, FrameUse::Modify, row, object, pairs.as_slice())
        }
    }
}

fn slot_retracted(
    alloc: Global,
    row: &[(u32, Const)],
    object: &Term,
    slot: &Term,
) -> Result<Option<Listed<Change>>, OutOfMemory>
    ensures { IfOk result (λ found. found ≡ of_both (value_of row.now object.now) (value_of row.now slot.now)
        (λ o s. Some (RetractSlot o s ∷ []))) }
{
    match value_in(alloc, row, object)? {
        Some(of) => match value_in(alloc, row, slot)? {
            Some(at) => Ok(Some(only(alloc, Change::RetractSlot(of, at))?)),
            None => Ok(None),
        },
        None => Ok(None),
    }
}

fn object_retracted(
    alloc: Global,
    row: &[(u32, Const)],
    object: &Term,
) -> Result<Option<Listed<Change>>, OutOfMemory>
    ensures { IfOk result (λ found. found ≡ option_map (λ o. RetractObject o ∷ []) (value_of row.now object.now)) }
{
    match value_in(alloc, row, object)? {
        Some(of) => Ok(Some(only(alloc, Change::RetractObject(of))?)),
        None => Ok(None),
    }
}

// One change for each fact that a target stands for.
fn changes_of_target(
    alloc: Global,
    way: FactUse,
    row: &[(u32, Const)],
    target: &Target,
) -> Result<Option<Listed<Change>>, OutOfMemory>
    ensures { IfOk result (λ found. found ≡ target_changes (fact_change way) row.now target.now) }
{
    match target {
        Target::Atom(predicate, arguments) => {
            changes_of_atom(alloc, way, row, predicate, arguments.as_slice())
        }
        Target::Frame(object, pairs) => {
            changes_of_slots(alloc, FrameUse::Fact(way), row, object, pairs.as_slice())
        }
        Target::Member(object, class) => changes_of_member(alloc, way, row, object, class),
    }
}

fn changes_of_atom(
    alloc: Global,
    way: FactUse,
    row: &[(u32, Const)],
    predicate: &Const,
    arguments: &[Term],
) -> Result<Option<Listed<Change>>, OutOfMemory>
    ensures { IfOk result (λ found. found
        ≡ option_map (λ cs. fact_change way (Atom predicate.now cs) ∷ []) (values_of row.now arguments.now)) }
{
    match values_in(alloc, row, arguments)? {
        Some(constants) => {
            let arguments = Shared::from_vec(alloc, constants.into_vec())?;
            let fact = Fact::Atom(predicate.copy()?, arguments);
            Ok(Some(only(alloc, way.change(fact))?))
        }
        None => Ok(None),
    }
}

fn changes_of_member(
    alloc: Global,
    way: FactUse,
    row: &[(u32, Const)],
    object: &Term,
    class: &Term,
) -> Result<Option<Listed<Change>>, OutOfMemory>
    ensures { IfOk result (λ found. found ≡ of_both (value_of row.now object.now) (value_of row.now class.now)
        (λ o c. Some (fact_change way (Member o c) ∷ []))) }
{
    match value_in(alloc, row, object)? {
        Some(of) => match value_in(alloc, row, class)? {
            Some(in_class) => Ok(Some(only(alloc, way.change(Fact::Member(of, in_class)))?)),
            None => Ok(None),
        },
        None => Ok(None),
    }
}

// One change for each pair of a slot and its value.
fn changes_of_slots(
    alloc: Global,
    way: FrameUse,
    row: &[(u32, Const)],
    object: &Term,
    pairs: &[(Term, Term)],
) -> Result<Option<Listed<Change>>, OutOfMemory>
    ensures { IfOk result (λ found. found ≡ slot_changes (frame_change way) row.now object.now pairs.now) }
{
    let mut list = Vec::new(alloc);
    for pair in pairs {
        match change_of_slot(alloc, way, row, object, pair)? {
            Some(change) => list.push(change)?,
            None => return Ok(None),
        }
    }
    Ok(Some(Listed::from_vec(list)))
}

fn change_of_slot(
    alloc: Global,
    way: FrameUse,
    row: &[(u32, Const)],
    object: &Term,
    pair: &(Term, Term),
) -> Result<Option<Change>, OutOfMemory>
    ensures { IfOk result (λ found. found ≡ slot_change (frame_change way) row.now object.now pair.now) }
{
    match value_in(alloc, row, object)? {
        Some(of) => change_of_pair(alloc, way, row, of, pair),
        None => Ok(None),
    }
}

fn change_of_pair(
    alloc: Global,
    way: FrameUse,
    row: &[(u32, Const)],
    object: Const,
    pair: &(Term, Term),
) -> Result<Option<Change>, OutOfMemory>
    ensures { IfOk result (λ found. found ≡ of_both (value_of row.now pair.now.0) (value_of row.now pair.now.1)
        (λ s v. Some (frame_change way object s v))) }
{
    match value_in(alloc, row, &pair.0)? {
        Some(slot) => match value_in(alloc, row, &pair.1)? {
            Some(constant) => Ok(Some(way.change(object, slot, constant))),
            None => Ok(None),
        },
        None => Ok(None),
    }
}

fn only(alloc: Global, change: Change) -> Result<Listed<Change>, OutOfMemory>
    ensures { IfOk result (λ list. list ≡ change ∷ []) }
{
    let mut list = Vec::new(alloc);
    list.push(change)?;
    Ok(Listed::from_vec(list))
}
