ghost use Rattle.std.specs.Prelude.{◌≡◌, ◌≤◌, IfOk, IfErr, Ok, length, suc};
ghost use Rattle.rif_refusals.specs.Limits.{most_rules};
ghost use Rattle.rif_safe.specs.Safeness.{RefusesRules, safe_rules_of};

use crate::laws::made_rules_are_safe;
use crate::rule::safe_rule;
use rif_refusals::Fault;
use rif_tree::Doc;
use safe_rules::SafeDoc;
use sqlite_items::Items;
use std::alloc::Global;

/// The document made safe: its variables by number, and each condition in a ready order, or its first refusal, rule
/// by rule: a use of a variable where it doesn't hold, else a repeated declaration, else too many branches, else a
/// variable that isn't bound.
///
/// The cost is linear in the document for scopes and numbers, and polynomial in a condition for its order.
///
/// Source: RIF-PRD, "Safeness"; the order of the refusals is our own (docs/FORMATS.md, "Refusals").
pub fn arrange(alloc: Global, doc: Doc) -> Result<SafeDoc, Fault>
    requires { length doc.rules ≤ most_rules }
    ensures safe { IfOk result (λ made. safe_rules_of doc ≡ Ok made) }
    ensures refused { IfErr result (RefusesRules doc) }
{
    safe_doc_of(alloc, &doc)
}

/// The same of a document that is kept.
pub fn safe_doc_of(alloc: Global, doc: &Doc) -> Result<SafeDoc, Fault>
    requires { length doc.now.rules ≤ most_rules }
    ensures safe { IfOk result (λ made. safe_rules_of doc.now ≡ Ok made) }
    ensures refused { IfErr result (RefusesRules doc.now) }
{
    made_rules_are_safe();
    let mut rules = Vec::with_capacity(alloc, doc.rules.len())?;
    for (place, rule) in doc.rules.as_slice().iter().enumerate() {
        match safe_rule(alloc, number_at(place), rule) {
            Ok(made) => rules.push(made)?,
            Err(fault) => return Err(fault),
        }
    }
    Ok(SafeDoc::of_rules(Items::from_vec(rules)))
}

// The number of the rule at a place.
fn number_at(place: usize) -> u32
    requires { suc place ≤ most_rules }
    ensures { result ≡ suc place }
{
    place as u32 + 1
}
