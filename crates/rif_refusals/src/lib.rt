//! Why an input is refused, and the limits of documents and jobs.
//!
//! | File | Has | Its words |
//! |---|---|---|
//! | `refusal.rt` | `Refusal`, why an input is refused, and where | `specs/Refusals.antt` |
//! | `fault.rt` | `Fault`, a refusal or want of memory | |
//! | `limits.rt` | the limits | `specs/Limits.antt` |
//! | `laws.rt` | that the limits are the stated ones | `specs/LimitLaws.antt` |
//!
//! Begin at `Refusal`.
#![tactic(auto)]

mod fault;
mod laws;
pub mod limits;
mod refusal;

pub use fault::Fault;
pub use laws::limits_are_the_stated_ones;
pub use refusal::{Counted, Refusal};
