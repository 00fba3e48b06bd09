//! Documents made safe: each variable holds where it stands, and each condition stands in an order in which every
//! variable is bound before it is asked for; or the refusal that says where that fails.
//!
//! | File | Has | Its words |
//! |---|---|---|
//! | `arranging.rt` | `arrange`, `safe_doc_of`: a document made safe | `specs/Safeness.antt` |
//! | `rule.rt` | one rule made safe | `specs/Safeness.antt` |
//! | `laws.rt` | that what is made is safe | `specs/Laws.antt` |
//!
//! The words for scopes and numbers are rule_scopes', those for the ready order ready_order's, and what a safe rule
//! keeps stands in safe_rules.
//!
//! Begin at `safe_doc_of`.
#![tactic(auto)]

mod arranging;
mod laws;
mod rule;

pub use arranging::{arrange, safe_doc_of};
pub use laws::made_rules_are_safe;
pub use safe_rules::{SafeDoc, SafeRule};
