//! Finite sets as ordered lists without repeats: how one is made and searched, and the laws of their words.
//!
//! | File | Has | Its words |
//! |---|---|---|
//! | `sets.rt` | `sorted_set`, `find_in_set` | rif_values `specs/Sets.antt` |
//! | `set_laws.rt` | what the words of sets and changes promise | `specs/SetLaws.antt` |
//!
//! Begin at `sorted_set`.
#![tactic(auto)]

pub mod set_laws;
mod sets;

pub use sets::{find_in_set, sorted_set};
