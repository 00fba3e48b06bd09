//! What terms, built-ins and patterns mean under the values of some variables, and the definition of what
//! satisfies a formula.
//!
//! | File | Has | Its words |
//! |---|---|---|
//! | `valuing.rt` | values of terms | `specs/Values.antt` |
//! | `builtins.rt` | `apply_func` and `holds`: the built-ins, row by row | `specs/Builtins.antt` |
//! | `arguments.rt` | their arguments by kind and number | `specs/Builtins.antt` |
//! | `numbers.rt`, `strings.rt` | those of integers, and those of strings | `specs/Builtins.antt` |
//! | `pattern.rt`, `matching.rt` | `Pattern`, one pattern against one fact | `specs/Extensions.antt` |
//! | `laws.rt` | what the words of extensions promise | `specs/ExtensionLaws.antt`, `specs/Truth.antt` |
//!
//! Begin at `fact_match`.
#![tactic(auto)]

mod arguments;
mod builtins;
pub mod laws;
mod matching;
mod numbers;
mod pattern;
mod strings;
mod valuing;

pub use builtins::{apply_func, holds};
pub use matching::{fact_match, term_match};
pub use pattern::Pattern;
pub use valuing::{value, value_in, values, values_in};
