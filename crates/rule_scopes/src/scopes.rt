//! Variables that are used where they don't hold, or declared where they do.
ghost use Rattle.std.specs.Prelude.{◌≡◌, IfOk};
ghost use Rattle.rule_scopes.specs.Occurrences.{first_undeclared, first_repeated};

use crate::occurrences::rule_misplaced;
use rif_tree::Rule;
use rif_values::OutOfMemory;
use std::alloc::Global;

/// The variable of a rule's first use, in the text, of one that doesn't hold there, if there is one: its place in the
/// rule's names. It visits the rule once, and what holds at each variable.
///
/// Source: RIF-PRD, "Rules", "Formulas" and "Action blocks"; which use is told is our own (docs/FORMATS.md,
/// "Refusals").
pub fn undeclared(alloc: Global, rule: &Rule) -> Result<Option<u32>, OutOfMemory>
    ensures { IfOk result (λ found. found ≡ first_undeclared rule.now) }
{
    let found = rule_misplaced(alloc, rule)?;
    Ok(found.undeclared)
}

/// The variable of a rule's first declaration, in the text, of one that holds there already, if there is one: its
/// place in the rule's names. It visits the rule once, and what holds at each variable.
///
/// Source: our own (docs/FORMATS.md, "Refusals").
pub fn repeated(alloc: Global, rule: &Rule) -> Result<Option<u32>, OutOfMemory>
    ensures { IfOk result (λ found. found ≡ first_repeated rule.now) }
{
    let found = rule_misplaced(alloc, rule)?;
    Ok(found.repeated)
}
