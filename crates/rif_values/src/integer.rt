//! The integers of documents and facts. Their type and range are named here alone.

/// The type of an integer.
pub type Integer = i64;

/// The least integer.
pub const LEAST_INTEGER: Integer = Integer::MIN;

/// The greatest integer.
pub const GREATEST_INTEGER: Integer = Integer::MAX;
