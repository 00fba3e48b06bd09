//! What the words of conflict sets promise. Each law is the clause of a function with an empty body, and its
//! statement stands in specs/Laws.antt.
//!
//! Source: RIF-PRD, "Definitions and notational conventions", "Matching substitution" and "Condition satisfaction".
ghost use Rattle.rif_match.specs.Laws.{AreConflictSetsSets, HaveInstancesOfTheirRows, BindForallVariables};
ghost use Rattle.rif_match.specs.Laws.{GoByTruth};

/// Law: a conflict set has its instances in order, each once.
#[tactic(auto, using(crate::proofs::ConflictSetLemmas::conflict_set_is_set))]
pub fn conflict_sets_are_sets()
    ensures { AreConflictSetsSets }
{}

/// Law: an instance is in the conflict set exactly where its row is among the rows of the rule of its number.
pub fn instances_are_rules_with_their_rows()
    ensures { HaveInstancesOfTheirRows }
{}

/// Law: each row of a safe rule has values for exactly the rule's `Forall` variables, in order.
pub fn rows_bind_the_forall_variables()
    ensures { BindForallVariables }
{}

/// Law: an instance is in the conflict set of safe rules exactly where there is a rule of its number, its row has
/// values for exactly the rule's `Forall` variables, in order, and the rule's condition is true under the row.
pub fn instances_go_by_truth()
    ensures { GoByTruth }
{}
