//! Laws of safeness. Each is the clause of a function whose body does nothing.
ghost use Rattle.rif_safe.specs.Laws.{IsMadeSafe};

use ready_order::{arrangement_is_scoped, left_is_unbound, taken_is_ready};
use rule_scopes::{block_is_scoped, names_are_given, numbering_is_scoped, numbers_are_in_order};

/// Law: a rule that has no refusal is made a safe rule: its condition stands ready and in scope and has exactly the
/// `Forall` variables free, its block is in scope, and its variables have names.
pub fn made_rules_are_safe()
    ensures { IsMadeSafe }
{
    numbering_is_scoped();
    block_is_scoped();
    names_are_given();
    numbers_are_in_order();
    taken_is_ready();
    left_is_unbound();
    arrangement_is_scoped();
}
