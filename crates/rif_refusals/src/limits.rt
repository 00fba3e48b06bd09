//! The limits of a document and of a job. Each is the greatest number that is allowed.

/// The bytes of an input.
pub const MOST_INPUT_BYTES: usize = 4_194_304;

/// The brackets that are open at one place of a document.
pub const MOST_OPEN_BRACKETS: u64 = 64;

/// The rules of a document.
pub const MOST_RULES: u64 = 1_024;

/// The variable names of a rule.
pub const MOST_VARIABLES: u64 = 32;

/// The patterns in the conditions of a rule.
pub const MOST_PATTERNS: u64 = 32;

/// The actions of a rule.
pub const MOST_ACTIONS: u64 = 32;

/// The branches of a rule's condition, and of a formula inside `Not` or `Exists`.
pub const MOST_BRANCHES: u64 = 64;

/// A group's priority, and its negation the least one.
pub const MOST_PRIORITY: i32 = 10_000;

/// The budgets of a script together, in firings.
pub const MOST_BUDGETS: u64 = 1_000_000;

/// The items of a script.
pub const MOST_ITEMS: u64 = 65_536;

/// The clients of a script.
pub const MOST_CLIENTS: u64 = 16;

/// The characters of a client's name.
pub const MOST_NAME_CHARACTERS: usize = 16;

/// The items of one batch.
pub const MOST_BATCH_ITEMS: usize = 1_024;
