//! The outline of a rule: which leaf of the document each variable and each part of its conditions stands at. The
//! tree of a document has no places; its leaves have.
//!
//! | File | Has |
//! |---|---|
//! | `outline.rt` | `Outline`, `outline_of` |
//! | `mention.rt` | `Mention`: a place where a variable stands |
//! | `part.rt` | `Part`: a part of a rule's conditions |
//! | `branches.rt` | how many branches each part has |
//! | `excess.rt` | `Excess`, `excess_of`: where there are too many branches |
//! | `waiting.rt` | `Unbound`, `unbound_of`: what waits for which variables |
//! | `rule_walk.rt`, `formula_walk.rt` | the walk through a rule, beside its leaves |
//! | `walk.rt`, `sign.rt` | what a walk has found so far, and the leaves that it goes by |
//!
//! Begin at `outline_of`.
#![tactic(auto)]

mod branches;
mod excess;
mod formula_walk;
mod mention;
mod outline;
mod part;
mod rule_walk;
mod sign;
mod waiting;
mod walk;

pub use excess::{Excess, Share, excess_of};
pub use mention::{Declarer, Mention};
pub use outline::{Outline, outline_of};
pub use part::{Form, Part};
pub use waiting::{Unbound, Waiting, unbound_of};
