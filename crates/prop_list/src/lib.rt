//! The list that a session's clients share: each pushes by a seat of its own, and one taker takes.
//!
//! | File | Has | Its words |
//! |---|---|---|
//! | `propagation.rt` | `Propagation`, what every form of the list does and promises | `specs/Lists.antt` |
//! | `seg.rt` | `seg::List`, the form over an unbounded queue | `specs/SegSeats.antt`, `specs/SegViews.antt` |
//! | `tally.rt` | `Tally`, a number that contracts see alone | `specs/Tallies.antt` |
//!
//! Begin at `Propagation`.
#![tactic(auto)]

mod propagation;
pub mod seg;
mod tally;

pub use propagation::{NotFinished, Propagation, PushFault};
