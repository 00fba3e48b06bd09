//! Laws of the definitions.
ghost use Rattle.prd_leaves.specs.Documents.{OneOutcome};

/// Law: the tokens of a document are one document at most, have one refusal at most, and not both.
pub fn one_outcome()
    ensures { OneOutcome }
{}
