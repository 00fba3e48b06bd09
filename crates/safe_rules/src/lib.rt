//! Rules that are safe: each variable holds where it stands and gets a value before it is asked for. They are what
//! every later layer runs; rif_safe makes them of the rules of a document.
//!
//! | File | Has | Its words |
//! |---|---|---|
//! | `safe_rule.rt` | `SafeRule` | `specs/SafeRules.antt` |
//! | `safe_doc.rt` | `SafeDoc`, a document of safe rules | `specs/SafeRules.antt` |
//!
//! Begin at `SafeDoc`.
#![tactic(auto)]

mod safe_doc;
mod safe_rule;

pub use safe_doc::SafeDoc;
pub use safe_rule::SafeRule;
