//! What satisfies a formula, and every rule's instances. This is the plain way: each is listed from scratch.
ghost use Rattle.std.specs.Prelude.{◌≡◌, ◌<◌, ◌+◌, ◌++◌, map, IfOk, OnOk};
ghost use Rattle.rif_match.specs.ConflictSet.{conflict_set, instance_of, rows_of};
ghost use Rattle.rif_builtins.specs.Extensions.{base_of, extensions_of};

use crate::extending::rows_through;
use rif_facts::Facts;
use rif_sets::sorted_set;
use rif_tree::Formula;
use rif_values::{Binding, Instance, Listed, OutOfMemory};
use safe_rules::{SafeDoc, SafeRule};
use std::alloc::Global;

/// The rows that extend the row and satisfy the formula, in order, each once.
///
/// For each row that comes to a pattern, the pattern is tried on the facts that the narrowest key names which the
/// row and the pattern's constants determine. What is found is then sorted.
///
/// Source: RIF-PRD, "Matching substitution" and "Condition satisfaction".
pub fn matches(
    alloc: Global,
    facts: &Facts,
    row: &Binding,
    formula: &Formula,
) -> Result<Listed<Binding>, OutOfMemory>
    ensures { IfOk result (λ rows. rows ≡ extensions_of (base_of facts.now.list) row.now formula.now) }
{
    let mut one = Vec::new(alloc);
    one.push(row.copy()?)?;
    let found = rows_through(alloc, facts, formula, one)?;
    sorted_set(alloc, found)
}

/// The conflict set of a state of facts: the instances of all rules, in order, each once.
///
/// It lists them from scratch, whatever was listed before, each rule's at the cost of `matches`.
///
/// Source: RIF-PRD, "Operational semantics of a production rule system" and "Definitions and notational
/// conventions".
pub fn list_instances(
    alloc: Global,
    doc: &SafeDoc,
    facts: &Facts,
) -> Result<Listed<Instance>, OutOfMemory>
    ensures { IfOk result (λ instances. instances ≡ conflict_set doc.now facts.now.list) }
{
    let mut all = Vec::new(alloc);
    for (place, rule) in doc.rules().iter().enumerate() {
        let rows = rows_satisfying(alloc, facts, rule)?;
        push_instances(&mut all, number_at(place), rows.as_slice())?;
    }
    Ok(Listed::from_vec(all))
}

// The number of the rule at a place of a document.
fn number_at(place: usize) -> u32
    requires { place < 1024 }
    ensures { result ≡ place + 1 }
{
    place as u32 + 1
}

// The values of the rule's `Forall` variables that satisfy its condition.
fn rows_satisfying(
    alloc: Global,
    facts: &Facts,
    rule: &SafeRule,
) -> Result<Listed<Binding>, OutOfMemory>
    ensures { IfOk result (λ rows. rows ≡ rows_of (base_of facts.now.list) rule.now) }
{
    let unbound = Binding::new(alloc)?;
    matches(alloc, facts, &unbound, &rule.condition)
}

// Puts the instances of one rule at the end.
fn push_instances(all: &mut Vec<Instance>, rule: u32, rows: &[Binding]) -> Result<(), OutOfMemory>
    ensures { OnOk result (all.new.items ≡ all.old.items ++ map (instance_of rule) rows.now) }
{
    for row in rows {
        let instance = Instance {
            rule,
            row: row.copy()?,
        };
        all.push(instance)?;
    }
    Ok(())
}
