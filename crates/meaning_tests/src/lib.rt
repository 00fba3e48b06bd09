//! Tests of the house of meaning. What they try is read from the text of jobs, and what comes out is shown as
//! text, so that no value is built by hand. Whole runs stand in engine_tests and in examples/.
//!
//! | File | Has |
//! |---|---|
//! | `reading.rt` | documents, changes and facts from their text |
//! | `showing.rt` | facts and instances as text |
//! | `tests/calls.rt` | facts, conditions, instances and histories |
#![tactic(auto)]

#[cfg(test)]
mod reading;
#[cfg(test)]
mod showing;
#[cfg(test)]
mod tests;
