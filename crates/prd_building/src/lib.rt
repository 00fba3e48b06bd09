//! The document of leaves that are known to be one.
//!
//! | File | Has | Its words |
//! |---|---|---|
//! | `signs.rt` | what the leaves at a place begin, by the leaf that decides | `specs/Signs.antt` |
//! | `terms.rt` | constants, terms, lists of them, pairs, variables | `specs/Building.antt` |
//! | `formulas.rt`, `actions.rt`, `rules.rt` | formulas, actions and blocks, rules | `specs/Building.antt` |
//! | `document.rt` | `build`: groups and the document | `specs/Building.antt` |
//!
//! Begin at `build`. Leaves are spelled by trees of one value: `proofs/BuildingLaws.antt`.
#![tactic(auto)]

mod actions;
mod document;
mod formulas;
mod rules;
mod signs;
mod terms;

pub use document::build;
