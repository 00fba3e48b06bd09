//! What a run means, and the plain way to find what is picked: it lists each conflict set from scratch, and
//! stays plain, so that faster programs can be held against it.
//!
//! Definitions and laws speak of a rule system and not of a document: `system_of` makes the rule system of a
//! document, and is the one place at which a document comes in (`specs/RuleSystem.antt`).
//!
//! | File | Has | Its words |
//! |---|---|---|
//! | `moment.rt`, `mark.rt`, `plain.rt` | `Plain`, the history as its conflict sets | `specs/History.antt` |
//! | `choosing.rt` | `choose_plain`: a pick is made here | `specs/Choice.antt` |
//! | | turns, and runs of some batches | `specs/Turns.antt`, `specs/Runs.antt` |
//! | | rule systems, and the facts that turns leave | `specs/RuleSystem.antt`, `specs/FactsOfTurns.antt` |
//! | `laws.rt` | laws of the definitions | `specs/Laws.antt` |
//!
//! Begin at `specs/Runs.antt`, and at `choose_plain`.
#![tactic(auto)]

mod choosing;
pub mod laws;
mod mark;
mod moment;
mod plain;

pub use choosing::{choose_plain, priority};
pub use mark::Mark;
pub use moment::Moment;
pub use plain::Plain;
