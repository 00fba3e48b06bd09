//! Conditions against a state of facts: what satisfies a formula, and the conflict set. It is the plain way:
//! it lists all from scratch, and stays plain, so that faster programs can be held against it.
//!
//! | File | Has | Its words |
//! |---|---|---|
//! | `extending.rt`, `gathering.rt` | rows taken through formulas | rif_builtins `specs/Extensions.antt` |
//! | `narrowing.rt` | the key by which facts for a pattern are found | `specs/Narrowing.antt` |
//! | `listing.rt` | `matches`, `list_instances`: the conflict set | `specs/ConflictSet.antt` |
//! | `laws.rt` | laws of conflict sets | `specs/Laws.antt` |
//!
//! Begin at `list_instances`.
#![tactic(auto)]

mod extending;
mod gathering;
mod laws;
mod listing;
mod narrowing;

pub use laws::{
    conflict_sets_are_sets, instances_are_rules_with_their_rows, instances_go_by_truth,
    rows_bind_the_forall_variables,
};
pub use listing::{list_instances, matches};
