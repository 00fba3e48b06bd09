//! Tests of the engine: whole runs, and a run whose calls are made again where memory is short.
//!
//! | File | Has |
//! |---|---|
//! | `runs.rt` | whole runs |
//! | `tests.rt` | a call that was refused is made again, and the turns are those of the job |
#![tactic(auto)]

#[cfg(test)]
mod runs;
#[cfg(test)]
mod tests;
