//! Laws of rules with numbers.
ghost use Rattle.rule_scopes.specs.Laws.{AreNamesGiven, AreNumbersInOrder, IsBlockNumbered, IsNumberingScoped};

/// Law: where a rule uses each variable where it holds, so does its condition with numbers, and no number is declared
/// there where it holds already.
pub fn numbering_is_scoped()
    ensures { IsNumberingScoped }
{}

/// Law: and so it is with its block.
pub fn block_is_scoped()
    ensures { IsBlockNumbered }
{}

/// Law: and each of its numbers has a name.
pub fn names_are_given()
    ensures { AreNamesGiven }
{}

/// Law: what a rule declares has its numbers in the order of the text, each once: the `Forall` variables, those of
/// `Exists`, those of the block.
pub fn numbers_are_in_order()
    ensures { AreNumbersInOrder }
{}
