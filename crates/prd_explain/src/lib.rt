//! Refusals in words, for people: where they stand, what was found there, what could stand there or which limit is
//! passed, what else has to do with it, and how it may be mended. No clause says what the words are.
//!
//! | File | Has |
//! |---|---|
//! | `explaining.rt` | `explain`, `explain_line`: refusals of documents and of scripts |
//! | `rules.rt` | `explain_rule`: refusals of rules |
//! | `spot.rt` | a place of a document, with what stands there and before it |
//! | `expected.rt`, `wanted.rt` | what could stand at a place |
//! | `brackets.rt`, `keywords.rt`, `names.rt` | what may be meant |
//! | `calls.rt`, `limits.rt` | numbers of arguments, and limits |
//! | `unreadable.rt` | where no token begins |
//! | `rule_view.rt` | a rule, with where its parts stand |
//! | `scoping.rt`, `undeclared_hint.rt` | variables that don't hold, or hold already, and what may be meant |
//! | `holding.rt`, `nearest.rt` | variables that hold at a place, and names that are near |
//! | `branching.rt` | conditions with too many branches |
//! | `unbound.rt`, `unbound_hint.rt` | variables that get no value, and what would give them one |
#![tactic(auto)]

mod brackets;
mod branching;
mod calls;
mod expected;
mod explaining;
mod holding;
mod keywords;
mod limits;
mod names;
mod nearest;
mod rule_view;
mod rules;
mod scoping;
mod spot;
#[cfg(test)]
mod tests;
mod unbound;
mod unbound_hint;
mod undeclared_hint;
mod unreadable;
mod wanted;

pub use explaining::{explain, explain_line};
pub use refusal_lines::{Explanation, lines_of};
pub use rules::explain_rule;
