//! What is said of a refusal, and the lines that say it: a place, a sentence, further places, and a hint. No clause
//! says what the words are.
//!
//! | File | Has |
//! |---|---|
//! | `explanation.rt` | `Explanation`: what is said |
//! | `place.rt` | `Place`: a place of a text |
//! | `printing.rt` | `lines_of`: the lines that say it |
//! | `window.rt` | the part of a line that is shown, and the carets under it |
//! | `excerpt.rt` | parts of a text, and how they stand in a line for people |
//!
//! Begin at `Explanation`.
#![tactic(auto)]

mod excerpt;
mod explanation;
mod place;
mod printing;
#[cfg(test)]
mod tests;
mod window;

pub use excerpt::{line_of, push_name, push_number, push_quoted, push_short, text_at};
pub use explanation::{Explanation, Related};
pub use place::Place;
pub use printing::{lines_of, push_place};
