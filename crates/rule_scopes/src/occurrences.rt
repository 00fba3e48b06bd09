//! The places of a rule where variables stand, seen in the order of the text.
ghost use Rattle.std.specs.Prelude.{◌≡◌, ◌++◌, ◌∷◌, [], IfOk, OnOk};
ghost use Rattle.std.specs.List.{flat_map};
ghost use Rattle.std.specs.Option.{option_to_list};
ghost use Rattle.safe_rules.specs.BlockScope.{decl_variable, action_variables, target_variables};
ghost use Rattle.rule_scopes.specs.Misplaced.{nothing, seen_all};
ghost use Rattle.rule_scopes.specs.Occurrences.{level_occurrences, levels_occurrences, decl_occurrences};
ghost use Rattle.rule_scopes.specs.Occurrences.{block_occurrences, occurrences_in, rule_occurrences, uses};

use crate::misplaced::{Misplaced, nothing, see_declaration, see_declared};
use crate::variables::{see_frame, see_one, see_terms, see_two};
use rif_tree::{Action, Decl, Formula, Level, Rule, Target};
use rif_values::OutOfMemory;
use std::alloc::Global;

/// What stands in a rule where it may not.
#[tactic(auto, using(crate::proofs::OccurrenceLemmas::seen_append))]
pub fn rule_misplaced(alloc: Global, rule: &Rule) -> Result<Misplaced, OutOfMemory>
    ensures { IfOk result (λ found. found ≡ seen_all nothing (rule_occurrences rule.now)) }
{
    let mut found = nothing();
    let mut held = Vec::new(alloc);
    see_levels(alloc, &mut found, &mut held, rule.levels.as_slice())?;
    see_condition(alloc, &mut found, held.as_slice(), &rule.condition)?;
    see_block(&mut found, held, rule)?;
    Ok(found)
}

#[tactic(auto, using(crate::proofs::OccurrenceLemmas::seen_append))]
fn see_levels(
    alloc: Global,
    found: &mut Misplaced,
    held: &mut Vec<u32>,
    levels: &[Level],
) -> Result<(), OutOfMemory>
    ensures found { OnOk result (found.new ≡ seen_all found.old (levels_occurrences held.old.items levels.now)) }
    ensures held { OnOk result (held.new.items ≡ held.old.items ++ flat_map (λ level. level.vars) levels.now) }
{
    for level in levels {
        see_level(alloc, found, held, level)?;
    }
    Ok(())
}

// Adds the level's variables to what holds.
#[tactic(auto, using(crate::proofs::OccurrenceLemmas::seen_append))]
fn see_level(
    alloc: Global,
    found: &mut Misplaced,
    held: &mut Vec<u32>,
    level: &Level,
) -> Result<(), OutOfMemory>
    ensures found { OnOk result (found.new ≡ seen_all found.old (level_occurrences held.old.items level.now)) }
    ensures held { OnOk result (held.new.items ≡ held.old.items ++ level.now.vars) }
{
    see_declared(found, held, level.vars.as_slice())?;
    see_formulas(alloc, found, held.as_slice(), level.such_that.as_slice())
}

fn see_condition(
    alloc: Global,
    found: &mut Misplaced,
    held: &[u32],
    condition: &Option<Formula>,
) -> Result<(), OutOfMemory>
    ensures { OnOk result
        (found.new ≡ seen_all found.old (flat_map (occurrences_in held.now) (option_to_list condition.now))) }
{
    match condition {
        Some(formula) => see_formula(alloc, found, held, formula),
        None => Ok(()),
    }
}

#[cycle(occurrences)]
#[tactic(auto, using(crate::proofs::OccurrenceLemmas::occurrences_at_forms))]
fn see_formula(
    alloc: Global,
    found: &mut Misplaced,
    held: &[u32],
    formula: &Formula,
) -> Result<(), OutOfMemory>
    ensures { OnOk result (found.new ≡ seen_all found.old (occurrences_in held.now formula.now)) }
{
    match formula {
        Formula::And(members) => see_formulas(alloc, found, held, members.as_slice()),
        Formula::Or(branches) => see_formulas(alloc, found, held, branches.as_slice()),
        Formula::Not(inner) => see_formula(alloc, found, held, inner.get()),
        Formula::Exists(vars, inner) => {
            let mut inside = held.to_vec(alloc)?;
            see_declared(found, &mut inside, vars.as_slice())?;
            see_formula(alloc, found, inside.as_slice(), inner.get())
        }
        Formula::Equal(left, right) => {
            see_two(found, held, left, right);
            Ok(())
        }
        Formula::Member(object, class) => {
            see_two(found, held, object, class);
            Ok(())
        }
        Formula::Frame(object, pairs) => {
            see_frame(found, held, object, pairs.as_slice());
            Ok(())
        }
        Formula::Atom(_, terms) => {
            see_terms(found, held, terms.as_slice());
            Ok(())
        }
        Formula::Holds(_, terms) => {
            see_terms(found, held, terms.as_slice());
            Ok(())
        }
    }
}

#[cycle(occurrences)]
#[tactic(auto, using(crate::proofs::OccurrenceLemmas::seen_append))]
fn see_formulas(
    alloc: Global,
    found: &mut Misplaced,
    held: &[u32],
    formulas: &[Formula],
) -> Result<(), OutOfMemory>
    ensures { OnOk result (found.new ≡ seen_all found.old (flat_map (occurrences_in held.now) formulas.now)) }
{
    for formula in formulas {
        see_formula(alloc, found, held, formula)?;
    }
    Ok(())
}

// `held` is what holds around the block.
#[tactic(auto, using(crate::proofs::OccurrenceLemmas::seen_append))]
fn see_block(found: &mut Misplaced, held: Vec<u32>, rule: &Rule) -> Result<(), OutOfMemory>
    ensures { OnOk result
        (found.new ≡ seen_all found.old (block_occurrences held.items rule.now.decls rule.now.actions)) }
{
    let mut inside = held;
    for decl in rule.decls.as_slice() {
        see_decl(found, &mut inside, decl)?;
    }
    see_actions(found, inside.as_slice(), rule.actions.as_slice());
    Ok(())
}

// Adds the declaration's variable to what holds.
#[tactic(auto, using(crate::proofs::OccurrenceLemmas::seen_append))]
fn see_decl(found: &mut Misplaced, held: &mut Vec<u32>, decl: &Decl) -> Result<(), OutOfMemory>
    ensures found { OnOk result (found.new ≡ seen_all found.old (decl_occurrences held.old.items decl.now)) }
    ensures held { OnOk result (held.new.items ≡ held.old.items ++ decl_variable decl.now ∷ []) }
{
    match decl {
        Decl::Slot { var, object, slot } => {
            see_declaration(found, held.as_slice(), *var);
            see_two(found, held.as_slice(), object, slot);
            held.push(*var)?;
        }
        Decl::New { var } => {
            see_declaration(found, held.as_slice(), *var);
            held.push(*var)?;
        }
    }
    Ok(())
}

#[tactic(auto, using(crate::proofs::OccurrenceLemmas::seen_append))]
fn see_actions(found: &mut Misplaced, held: &[u32], actions: &[Action])
    ensures { found.new
        ≡ seen_all found.old (flat_map (λ action. uses held.now (action_variables action)) actions.now) }
{
    for action in actions {
        see_action(found, held, action);
    }
}

fn see_action(found: &mut Misplaced, held: &[u32], action: &Action)
    ensures { found.new ≡ seen_all found.old (uses held.now (action_variables action.now)) }
{
    match action {
        Action::Assert(target) => see_target(found, held, target),
        Action::Retract(target) => see_target(found, held, target),
        Action::RetractSlot(object, slot) => see_two(found, held, object, slot),
        Action::RetractObject(object) => see_one(found, held, object),
        Action::Modify(object, pairs) => see_frame(found, held, object, pairs.as_slice()),
    }
}

fn see_target(found: &mut Misplaced, held: &[u32], target: &Target)
    ensures { found.new ≡ seen_all found.old (uses held.now (target_variables target.now)) }
{
    match target {
        Target::Atom(_, terms) => see_terms(found, held, terms.as_slice()),
        Target::Frame(object, pairs) => see_frame(found, held, object, pairs.as_slice()),
        Target::Member(object, class) => see_two(found, held, object, class),
    }
}
