//! Where the variables of a rule are declared and used, and a rule whose variables are numbers.
//!
//! | File | Has | Its words |
//! |---|---|---|
//! | `scopes.rt` | `undeclared`, `repeated`: what stands where it may not | `specs/Occurrences.antt` |
//! | `occurrences.rt`, `misplaced.rt`, `variables.rt` | the walk that finds it | `specs/Misplaced.antt` |
//! | `numbered_rule.rt` | `NumberedRule`, `number` | `specs/Numbering.antt` |
//! | `numbered_formula.rt`, `numbered_block.rt`, `numbered_term.rt`, `naming.rt` | its parts | |
//! | `laws.rt` | laws of rules with numbers | `specs/Laws.antt`, safe_rules `specs/Named.antt` |
//!
//! Begin at `number`.
#![tactic(auto)]

mod laws;
mod misplaced;
mod naming;
mod numbered_block;
mod numbered_formula;
mod numbered_rule;
mod numbered_term;
mod occurrences;
mod scopes;
mod variables;

pub use laws::{block_is_scoped, names_are_given, numbering_is_scoped, numbers_are_in_order};
pub use numbered_rule::{NumberedRule, number};
pub use scopes::{repeated, undeclared};
