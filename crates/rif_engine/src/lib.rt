//! The engine: a session of one document, which takes batches and settles their acts, and keeps its turns.
//!
//! What is chosen is found by `listing.rt` alone; nothing else knows how.
//!
//! | File | Has | Its words |
//! |---|---|---|
//! | `engine.rt` | `Engine`, a run so far | `specs/SoFar.antt`, `specs/Keeping.antt` |
//! | `replaying.rt` | `replay`, the run of some batches | `specs/Replaying.antt` |
//! | `standing.rt`, `settled.rt` | the session between two turns, and what a turn came to | `specs/Standing.antt` |
//! | `steps.rt` | the steps of a turn that need no session | |
//! | `listing.rt` | how the chosen instance is found | `specs/Listings.antt` |
//!
//! Begin at `Engine`.
#![tactic(auto)]

mod engine;
mod listing;
mod replaying;
mod settled;
mod standing;
mod steps;

pub use engine::Engine;
pub use replaying::replay;
