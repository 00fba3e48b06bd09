//! The ready order: the conjuncts of a condition in an order in which each is ready in its turn.
//!
//! | File | Has | Its words |
//! |---|---|---|
//! | `flattening.rt` | the conjuncts of a formula | `specs/Conjuncts.antt` |
//! | `shape.rt` | whether formulas are their own conjuncts | `specs/Shapes.antt` |
//! | `standing.rt` | whether conjuncts stand in a ready order | rif_tree `specs/Ready.antt` |
//! | `branching.rt` | whether a formula has too many branches | `specs/Branches.antt` |
//! | `arranging.rt` | conjuncts in order, the first that is ready taken again and again | `specs/Arranging.antt` |
//! | `probing.rt` | whether a formula may be arranged, so that no try is in vain | `specs/Findings.antt` |
//! | `findings.rt` | `Findings`: what such tests have found | `specs/Findings.antt` |
//! | `division.rt` | `Division`: what was taken and what is left | `specs/Divisions.antt` |
//! | `laws.rt` | laws of the ready order | `specs/Laws.antt`, `specs/Declarations.antt`, `specs/Shapes.antt` |
//!
//! Begin at `arrange_owned`. It takes polynomial time, however deep `Exists` and `Or` stand inside one another;
//! `probing.rt` says why.
#![tactic(auto)]

mod arranging;
mod branching;
mod division;
mod findings;
mod flattening;
mod laws;
mod probing;
mod progress;
mod readiness;
mod shape;
mod standing;
mod variables;

pub use arranging::{arrange, arrange_conjuncts, arrange_owned};
pub use branching::too_many_branches;
pub use division::Division;
pub use flattening::conjuncts;
pub use laws::{
    arranged_is_ready, arranged_stays, arrangement_is_scoped, arrangement_is_shaped,
    arrangement_is_taking, arranging_grows, conjuncts_are_scoped, declarations_are_kept,
    least_is_left, left_is_unbound, nothing_is_lost, ready_is_arranged, taken_is_ready,
    taken_is_scoped,
};
