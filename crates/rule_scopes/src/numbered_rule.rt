//! Rules whose variables are numbers.
ghost use Rattle.std.specs.Prelude.{◌≡◌, ◌++◌, IfOk, OnOk, map, length};
ghost use Rattle.std.specs.List.{flat_map};
ghost use Rattle.std.specs.Option.{option_to_list};
ghost use Rattle.rif_tree.specs.declared.tree.Formula.TheVariants.{And};
ghost use Rattle.rif_tree.specs.Rules.{name_of};
ghost use Rattle.rule_scopes.specs.Numbering.{numbering_of, declared_in, each_form, conditions_of};
ghost use Rattle.rule_scopes.specs.Numbering.{exists_variables, numbered_rule};

use crate::naming::{Naming, namings_from};
use crate::numbered_block::{numbered_actions, numbered_decls};
use crate::numbered_formula::{next_number, numbered_formula, push_numbered};
use rif_tree::{Action, Decl, Formula, Level, Rule};
use rif_values::{OutOfMemory, Text};
use sqlite_items::Items;
use std::alloc::Global;

/// What a rule has beside its priority, with numbers for its variables: the `Forall` variables first, in the order of
/// the text, then those of `Exists`, then those of the block.
///
/// Source: our own (docs/FORMATS.md, "The document's tree").
#[derive(Debug, Drop)]
pub struct NumberedRule {
    /// The name of each variable, at the place of its number.
    pub names: Items<Text>,
    /// How many `Forall` variables there are: these have the numbers below.
    pub head_vars: u32,
    /// One `And` of all `such that` formulas, outermost first, and the `If` formula.
    pub condition: Formula,
    pub decls: Items<Decl>,
    pub actions: Items<Action>,
}

/// A rule with numbers in place of its variables. It visits the rule once, and what holds at each variable. Where it
/// declares more than `u32::MAX`, there is no memory for them.
///
/// Source: our own (docs/FORMATS.md, "The document's tree").
pub fn number(alloc: Global, rule: &Rule) -> Result<NumberedRule, OutOfMemory>
    ensures { IfOk result (λ made. made ≡ numbered_rule rule.now) }
{
    let mut declared = forall_variables(alloc, rule.levels.as_slice())?;
    let head_vars = next_number(declared.as_slice())?;
    let mut scope = namings_from(alloc, 0, declared.as_slice())?;
    let condition = numbered_condition(alloc, scope.as_slice(), &mut declared, rule)?;
    let decls = numbered_decls(alloc, &mut scope, &mut declared, rule.decls.as_slice())?;
    let actions = numbered_actions(alloc, scope.as_slice(), rule.actions.as_slice())?;
    Ok(NumberedRule {
        names: names_of(alloc, rule.names.as_slice(), declared.as_slice())?,
        head_vars,
        condition,
        decls,
        actions,
    })
}

fn forall_variables(alloc: Global, levels: &[Level]) -> Result<Vec<u32>, OutOfMemory>
    ensures { IfOk result (λ vars. vars.items ≡ flat_map (λ level. level.vars) levels.now) }
{
    let mut vars = Vec::new(alloc);
    for level in levels {
        vars.extend_from_slice(level.vars.as_slice())?;
    }
    Ok(vars)
}

// One `And` of all conditions of the rule. What they declare is added to `declared`.
fn numbered_condition(
    alloc: Global,
    scope: &[Naming],
    declared: &mut Vec<u32>,
    rule: &Rule,
) -> Result<Formula, OutOfMemory>
    ensures condition { IfOk result (λ made. made
        ≡ And (each_form (map numbering_of (conditions_of rule.now)) scope.now (length declared.old.items))) }
    ensures declared { OnOk result (declared.new.items ≡ declared.old.items ++ exists_variables rule.now) }
{
    let mut made = Vec::new(alloc);
    push_levels(alloc, &mut made, scope, declared, rule.levels.as_slice())?;
    push_condition(alloc, &mut made, scope, declared, &rule.condition)?;
    Ok(Formula::And(Items::from_vec(made)))
}

// Appends the `If` formula, where there is one.
fn push_condition(
    alloc: Global,
    made: &mut Vec<Formula>,
    scope: &[Naming],
    declared: &mut Vec<u32>,
    condition: &Option<Formula>,
) -> Result<(), OutOfMemory>
    ensures made { OnOk result (made.new.items ≡ made.old.items ++ each_form
        (map numbering_of (option_to_list condition.now)) scope.now (length declared.old.items)) }
    ensures declared { OnOk result (declared.new.items
        ≡ declared.old.items ++ flat_map declared_in (option_to_list condition.now)) }
{
    match condition {
        Some(formula) => {
            made.push(numbered_formula(alloc, scope, declared, formula)?)?;
            Ok(())
        }
        None => Ok(()),
    }
}

// Appends the `such that` formulas, outermost first.
fn push_levels(
    alloc: Global,
    made: &mut Vec<Formula>,
    scope: &[Naming],
    declared: &mut Vec<u32>,
    levels: &[Level],
) -> Result<(), OutOfMemory>
    ensures made { OnOk result (made.new.items ≡ made.old.items ++ each_form
        (map numbering_of (flat_map (λ level. level.such_that) levels.now)) scope.now (length declared.old.items)) }
    ensures declared { OnOk result (declared.new.items ≡ declared.old.items
        ++ flat_map declared_in (flat_map (λ level. level.such_that) levels.now)) }
{
    for level in levels {
        push_numbered(alloc, made, scope, declared, level.such_that.as_slice())?;
    }
    Ok(())
}

fn names_of(alloc: Global, names: &[Text], vars: &[u32]) -> Result<Items<Text>, OutOfMemory>
    ensures { IfOk result (λ made. made ≡ map (name_of names.now) vars.now) }
{
    let mut all = Vec::new(alloc);
    for var in vars {
        all.push(name_of(alloc, names, *var)?)?;
    }
    Ok(Items::from_vec(all))
}

// The name of a variable, and no text where it has none.
fn name_of(alloc: Global, names: &[Text], var: u32) -> Result<Text, OutOfMemory>
    ensures { IfOk result (λ name. name ≡ name_of names.now var) }
{
    match names.get(var as usize) {
        Some(name) => name.copy(),
        None => Text::from_str(alloc, ""),
    }
}
