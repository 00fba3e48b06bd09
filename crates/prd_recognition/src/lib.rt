//! Whether leaves are a document at which no refusal stands, or else the first that is refused, and why.
//!
//! | File | Has | Its words |
//! |---|---|---|
//! | `recognizing.rt` | `recognize`: what leaves lead to | `specs/Recognizing.antt` |
//! | `want.rt`, `following.rt` | what has still to come | `specs/Following.antt` |
//! | `progress.rt`, `counting.rt`, `signs.rt` | what has been read, and its counts | `specs/Reached.antt` |
//! | `refusing.rt` | the refusals at a leaf | prd_grammar `specs/Refusals.antt` |
//!
//! Begin at `recognize`.
#![tactic(auto)]

mod counting;
mod following;
mod progress;
mod recognizing;
mod refusing;
mod signs;
mod want;

pub use following::advance;
pub use recognizing::{Outcome, recognize};
pub use refusing::{place_of_refusal, refusal_at};
pub use signs::is_term;
pub use want::Want;
