//! Laws of the definitions.
ghost use Rattle.prd_limits.specs.Limits.{CountsAreOfTrees, VariablesArePlaces};

/// Law: what is counted of the leaves of a tree is what the document that it stands for has: the names of each rule
/// are those that were seen, and where no refusal stands at a leaf the document keeps the limits.
pub fn counts_are_of_trees()
    ensures { CountsAreOfTrees }
{}

/// Law: each variable of the document that a tree stands for is a place in its rule's names.
pub fn variables_are_places()
    ensures { VariablesArePlaces }
{}
