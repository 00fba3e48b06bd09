//! The canonical text of documents.
//!
//! | File | Has | Its words |
//! |---|---|---|
//! | `rule.rt` | `write_doc`: documents and rules | `specs/Canonical.antt` |
//! | `term.rt`, `atomic.rt` | terms, atoms and frames | `specs/Canonical.antt` |
//! | `formula.rt`, `action.rt` | formulas, actions and blocks | `specs/Canonical.antt` |
//!
//! Begin at `write_doc`. That the text is read back is `prd_canonical`'s part.
#![tactic(auto)]

mod action;
mod atomic;
mod formula;
mod rule;
mod term;

pub use rule::write_doc;
