//! Tests of the house of text: what inputs lead to, in tables that were worked out by hand. Each refusal with its
//! words, and most limits, stand in docs/REFUSALS.md, and documents with their canonical texts in examples/.
//!
//! | File | Has |
//! |---|---|
//! | `outcome.rt` | what a job leads to, as text |
//! | `tests/lexing.rt`, `tests/tokens.rt`, `tests/utf8.rt` | tokens |
//! | `tests/documents.rt` | documents |
//! | `tests/jobs.rt`, `tests/scripts.rt`, `tests/limits.rt` | the parts of a job, its lines, its limits |
//! | `tests/cuts.rt` | the batches of a job |
//! | `tests/ends.rt` | readers and writers that fail |
#![tactic(auto)]

#[cfg(test)]
mod outcome;
#[cfg(test)]
mod tests;
