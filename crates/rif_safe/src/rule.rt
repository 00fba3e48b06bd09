//! Rules made safe, or refused.
ghost use Rattle.std.specs.Prelude.{◌≡◌, IfOk};
ghost use Rattle.rif_tree.specs.Rules.{name_of};
ghost use Rattle.rif_tree.specs.Variables.{without};
ghost use Rattle.ready_order.specs.Arranging.{least_of};
ghost use Rattle.rif_refusals.specs.declared.fault.Fault.TheVariants.{Refused};
ghost use Rattle.rif_refusals.specs.declared.refusal.Refusal.TheVariants.{DeclaredTwice, TooManyBranches};
ghost use Rattle.rif_refusals.specs.declared.refusal.Refusal.TheVariants.{Undeclared, Unsafe};
ghost use Rattle.ready_order.specs.Divisions.{arrangement_told};
ghost use Rattle.rule_scopes.specs.Numbering.{numbered_rule};
ghost use Rattle.rule_scopes.specs.Occurrences.{first_repeated};
ghost use Rattle.safe_rules.specs.Numbers.{numbers_below};
ghost use Rattle.rif_safe.specs.Safeness.{IsMade, arranged_rule, bound_rule, declared_rule, rearranged, safe_rule};
ghost use Rattle.rif_safe.specs.Safeness.{scoped_rule};
ghost use Rattle.rif_safe.specs.Safeness.{unsafe_variable};

use ready_order::{Division, arrange_owned, too_many_branches};
use rif_refusals::{Fault, Refusal};
use rif_tree::{Formula, Rule, has_variable};
use rif_values::{OutOfMemory, Text};
use rule_scopes::{NumberedRule, number, repeated, undeclared};
use safe_rules::SafeRule;
use sqlite_items::Items;
use std::alloc::Global;

/// The rule of a number made safe, or its refusal.
pub fn safe_rule(alloc: Global, rule_number: u32, rule: &Rule) -> Result<SafeRule, Fault>
    ensures { IsMade (safe_rule rule_number rule.now) result }
{
    match undeclared(alloc, rule)? {
        Some(var) => {
            let name = name_at(alloc, rule.names.as_slice(), var)?;
            Err(undeclared_at(rule_number, name))
        }
        None => used_rule(alloc, rule_number, rule),
    }
}

// A rule whose uses hold.
fn used_rule(alloc: Global, rule_number: u32, rule: &Rule) -> Result<SafeRule, Fault>
    ensures { IsMade (declared_rule rule_number rule.now (first_repeated rule.now)) result }
{
    match repeated(alloc, rule)? {
        Some(var) => {
            let name = name_at(alloc, rule.names.as_slice(), var)?;
            Err(declared_twice_at(rule_number, name))
        }
        None => declared_rule(alloc, rule_number, rule),
    }
}

// A rule whose variables hold where they stand, each declared once.
fn declared_rule(alloc: Global, rule_number: u32, rule: &Rule) -> Result<SafeRule, Fault>
    ensures { IsMade (scoped_rule rule_number rule.now.priority (numbered_rule rule.now)) result }
{
    let numbered = number(alloc, rule)?;
    scoped_rule(alloc, rule_number, rule.priority, numbered)
}

// Such a rule, with numbers. Its condition is divided, and doesn't stand in the rule then.
fn scoped_rule(
    alloc: Global,
    rule_number: u32,
    priority: i32,
    rule: NumberedRule,
) -> Result<SafeRule, Fault>
    ensures { IsMade (scoped_rule rule_number priority rule) result }
{
    if too_many_branches(&rule.condition) {
        return Err(too_many_branches_at(rule_number));
    }
    let NumberedRule {
        names,
        head_vars,
        condition,
        decls,
        actions,
    } = rule;
    let division = arrange_owned(alloc, condition)?;
    let others = NumberedRule {
        names,
        head_vars,
        condition: Formula::And(Items::new(alloc)),
        decls,
        actions,
    };
    arranged_rule(alloc, rule_number, priority, others, division)
}

// A rule whose condition is divided so.
fn arranged_rule(
    alloc: Global,
    rule_number: u32,
    priority: i32,
    rule: NumberedRule,
    division: Division,
) -> Result<SafeRule, Fault>
    ensures { IsMade (arranged_rule rule_number priority rule (arrangement_told division)) result }
{
    let unbound = variable_unbound(alloc, &rule, &division)?;
    bound_rule(alloc, rule_number, priority, rule, division, unbound)
}

// The rule, where no variable is unbound.
fn bound_rule(
    alloc: Global,
    rule_number: u32,
    priority: i32,
    rule: NumberedRule,
    division: Division,
    unbound: Option<u32>,
) -> Result<SafeRule, Fault>
    ensures { IsMade (bound_rule rule_number priority rule (arrangement_told division) unbound) result }
{
    match unbound {
        Some(var) => Err(unsafe_at(rule_number, name_at(alloc, rule.names.as_slice(), var)?)),
        None => Ok(with_condition(priority, rule, division)),
    }
}

// The variable of a refusal, where the condition is divided so.
fn variable_unbound(
    alloc: Global,
    rule: &NumberedRule,
    division: &Division,
) -> Result<Option<u32>, OutOfMemory>
    ensures { IfOk result (λ found. found ≡ unsafe_variable rule.now (arrangement_told division.now)) }
{
    if division.left.as_slice().is_empty() {
        Ok(least_outside(rule.head_vars, division.bound.as_slice()))
    } else {
        division.least_unbound(alloc)
    }
}

// The least number below this one that isn't bound.
fn least_outside(count: u32, bound: &[u32]) -> Option<u32>
    ensures { result ≡ least_of (without bound.now (numbers_below count)) }
{
    for var in 0..count {
        if !has_variable(bound, var) {
            return Some(var);
        }
    }
    None
}

// The name of a variable, and no text where it has none.
fn name_at(alloc: Global, names: &[Text], var: u32) -> Result<Text, OutOfMemory>
    ensures { IfOk result (λ name. name ≡ name_of names.now var) }
{
    match names.get(var as usize) {
        Some(name) => name.copy(),
        None => Text::from_str(alloc, ""),
    }
}

// The rule with its condition as it was taken.
fn with_condition(priority: i32, rule: NumberedRule, division: Division) -> SafeRule
    ensures { result ≡ rearranged priority rule (arrangement_told division) }
{
    SafeRule {
        priority,
        names: rule.names,
        head_vars: rule.head_vars,
        condition: Formula::And(division.taken),
        decls: rule.decls,
        actions: rule.actions,
    }
}

fn unsafe_at(rule: u32, name: Text) -> Fault
    ensures { result ≡ Refused (Unsafe rule name) }
{
    Fault::Refused(Refusal::Unsafe { rule, name })
}

fn undeclared_at(rule: u32, name: Text) -> Fault
    ensures { result ≡ Refused (Undeclared rule name) }
{
    Fault::Refused(Refusal::Undeclared { rule, name })
}

fn declared_twice_at(rule: u32, name: Text) -> Fault
    ensures { result ≡ Refused (DeclaredTwice rule name) }
{
    Fault::Refused(Refusal::DeclaredTwice { rule, name })
}

fn too_many_branches_at(rule: u32) -> Fault
    ensures { result ≡ Refused (TooManyBranches rule) }
{
    Fault::Refused(Refusal::TooManyBranches { rule })
}
