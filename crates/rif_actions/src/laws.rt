//! What the words of blocks promise. Each law is the clause of a function with an empty body, and its statement
//! stands in specs/Laws.antt.
//!
//! Source: our own (docs/PROFILE.md, "Actions").
ghost use Rattle.rif_actions.specs.Laws.{IsLeastValue};

/// Law: in a state of facts a value is the least one of an object's slot exactly where the slot has it, and each
/// other value of the slot is above it.
pub fn the_least_value_is_below_the_others()
    ensures { IsLeastValue }
{}
