//! Tests of the built-ins: the values that XPath's functions have at their edges, worked by hand, and that there is
//! none of other arguments.
//!
//! | File | Has |
//! |---|---|
//! | `values.rt` | arguments for the tests |
//! | `tests/numbers.rt` | integers: functions and comparisons |
//! | `tests/strings.rt` | strings: concatenation, length and parts |
//! | `tests/kinds.rt` | arguments of each kind and number |
#![tactic(auto)]

#[cfg(test)]
mod tests;
#[cfg(test)]
mod values;
