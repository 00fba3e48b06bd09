//! What holds of the canonical text of a document that was read: its tokens are told apart, and it is read back.
//!
//! | File | Has | Its words |
//! |---|---|---|
//! | `laws.rt` | laws of the definitions | `specs/ReadBack.antt`, `specs/Separate.antt` |
//!
//! The other specs are words of the proofs: `CanonicalTrees` is the tree of the text, `Writable` and `WritableLeaves`
//! say what can be written so that it is read back.
#![tactic(auto)]

mod laws;

pub use laws::{canonical_is_read_back, canonical_is_separate};
