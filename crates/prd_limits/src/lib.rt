//! What holds of every document at whose leaves no refusal stands: it keeps the limits, and each variable is a place
//! in its rule's names.
//!
//! | File | Has | Its words |
//! |---|---|---|
//! | `laws.rt` | laws of the definitions | `specs/Limits.antt` |
#![tactic(auto)]

mod laws;

pub use laws::{counts_are_of_trees, variables_are_places};
