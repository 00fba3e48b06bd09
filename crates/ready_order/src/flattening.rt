//! The conjuncts of a formula.
ghost use Rattle.std.specs.Prelude.{◌≡◌, ◌++◌, [], ◌∷◌, map, IfOk, OnOk};
ghost use Rattle.std.specs.List.{flat_map};
ghost use Rattle.rif_tree.specs.declared.tree.Formula.TheVariants.{And};
ghost use Rattle.ready_order.specs.Conjuncts.{conjuncts_of, slots_of};

use crate::shape::are_alone;
use rif_tree::{Formula, Term};
use rif_values::OutOfMemory;
use sqlite_items::{Boxed, Items};
use std::alloc::Global;

/// The conjuncts of a formula, at the cost of a copy of it.
pub fn conjuncts(alloc: Global, formula: &Formula) -> Result<Items<Formula>, OutOfMemory>
    ensures { IfOk result (λ all. all ≡ conjuncts_of formula.now) }
{
    let mut all = Vec::new(alloc);
    push_conjuncts(alloc, &mut all, formula)?;
    Ok(Items::from_vec(all))
}

/// The conjuncts of a formula that is given up. Where it has the shape of arranged conditions, but for an `And` at
/// its end, as a rule has its `If` formula behind its `such that` formulas, they are moved, and else it costs what
/// `conjuncts` does.
pub(crate) fn own_conjuncts(alloc: Global, formula: Formula) -> Result<Items<Formula>, OutOfMemory>
    ensures { IfOk result (λ all. all ≡ conjuncts_of formula) }
{
    match formula {
        Formula::And(members) => members_conjuncts(alloc, members),
        other => conjuncts(alloc, &other),
    }
}

fn members_conjuncts(alloc: Global, members: Items<Formula>) -> Result<Items<Formula>, OutOfMemory>
    ensures { IfOk result (λ all. all ≡ conjuncts_of (And members)) }
{
    let mut before = members;
    match before.pop() {
        None => Ok(before),
        Some(last) => {
            if are_alone(before.as_slice()) {
                push_last(alloc, &mut before, last)?;
                Ok(before)
            } else {
                before.push(last)?;
                conjuncts(alloc, &Formula::And(before))
            }
        }
    }
}

// Puts the conjuncts of a formula behind others.
fn push_last(alloc: Global, all: &mut Items<Formula>, last: Formula) -> Result<(), OutOfMemory>
    ensures { OnOk result (all.new ≡ all.old ++ conjuncts_of last) }
{
    let own = last_conjuncts(alloc, last)?;
    all.append(own)?;
    Ok(())
}

fn last_conjuncts(alloc: Global, last: Formula) -> Result<Items<Formula>, OutOfMemory>
    ensures { IfOk result (λ all. all ≡ conjuncts_of last) }
{
    match last {
        Formula::And(members) => {
            if are_alone(members.as_slice()) {
                Ok(members)
            } else {
                conjuncts(alloc, &Formula::And(members))
            }
        }
        other => conjuncts(alloc, &other),
    }
}

#[cycle(conjuncts)]
#[tactic(auto, using(crate::proofs::ConjunctsLemmas::conjuncts_and, crate::proofs::ConjunctsLemmas::conjuncts_or))]
fn push_conjuncts(
    alloc: Global,
    all: &mut Vec<Formula>,
    formula: &Formula,
) -> Result<(), OutOfMemory>
    ensures { OnOk result (all.new.items ≡ all.old.items ++ conjuncts_of formula.now) }
{
    match formula {
        Formula::And(members) => push_each_conjuncts(alloc, all, members.as_slice()),
        Formula::Or(branches) => {
            push_one(all, Formula::Or(grouped_each(alloc, branches.as_slice())?))
        }
        Formula::Not(inner) => {
            let group = grouped(alloc, inner.get())?;
            push_one(all, Formula::Not(Boxed::new(alloc, group)?))
        }
        Formula::Exists(vars, inner) => {
            let group = grouped(alloc, inner.get())?;
            let vars = Items::from_slice(alloc, vars.as_slice())?;
            push_one(all, Formula::Exists(vars, Boxed::new(alloc, group)?))
        }
        Formula::Frame(object, pairs) => push_slots(alloc, all, object, pairs.as_slice()),
        Formula::Equal(..) | Formula::Member(..) | Formula::Atom(..) | Formula::Holds(..) => {
            push_one(all, formula.copy(alloc)?)
        }
    }
}

#[cycle(conjuncts)]
fn push_each_conjuncts(
    alloc: Global,
    all: &mut Vec<Formula>,
    formulas: &[Formula],
) -> Result<(), OutOfMemory>
    ensures { OnOk result (all.new.items ≡ all.old.items ++ flat_map conjuncts_of formulas.now) }
{
    for formula in formulas {
        push_conjuncts(alloc, all, formula)?;
    }
    Ok(())
}

// The `And` of a formula's conjuncts.
#[cycle(conjuncts)]
fn grouped(alloc: Global, formula: &Formula) -> Result<Formula, OutOfMemory>
    ensures { IfOk result (λ group. group ≡ And (conjuncts_of formula.now)) }
{
    let mut all = Vec::new(alloc);
    push_conjuncts(alloc, &mut all, formula)?;
    Ok(Formula::And(Items::from_vec(all)))
}

#[cycle(conjuncts)]
fn grouped_each(alloc: Global, formulas: &[Formula]) -> Result<Items<Formula>, OutOfMemory>
    ensures { IfOk result (λ groups. groups ≡ map (λ f. And (conjuncts_of f)) formulas.now) }
{
    let mut groups = Vec::new(alloc);
    for formula in formulas {
        groups.push(grouped(alloc, formula)?)?;
    }
    Ok(Items::from_vec(groups))
}

fn push_one(all: &mut Vec<Formula>, formula: Formula) -> Result<(), OutOfMemory>
    ensures { OnOk result (all.new.items ≡ all.old.items ++ formula ∷ []) }
{
    all.push(formula)?;
    Ok(())
}

// Puts the slots of a frame at the end, each a frame of its own.
fn push_slots(
    alloc: Global,
    all: &mut Vec<Formula>,
    object: &Term,
    pairs: &[(Term, Term)],
) -> Result<(), OutOfMemory>
    ensures { OnOk result (all.new.items ≡ all.old.items ++ slots_of object.now pairs.now) }
{
    for pair in pairs {
        let mut slot = Vec::with_capacity(alloc, 1)?;
        slot.push((pair.0.copy(alloc)?, pair.1.copy(alloc)?))?;
        all.push(Formula::Frame(object.copy(alloc)?, Items::from_vec(slot)))?;
    }
    Ok(())
}
