ghost use Rattle.std.specs.Prelude.{◌≡◌, IfOk};
ghost use Rattle.rif_refusals.specs.Refusals.{refusal_number};

use crate::limits::{
    MOST_BRANCHES, MOST_BUDGETS, MOST_CLIENTS, MOST_INPUT_BYTES, MOST_ITEMS, MOST_OPEN_BRACKETS,
    MOST_PRIORITY,
};
use rif_values::{OutOfMemory, Text};
use std::alloc::AllocError;
use std::fmt;
use thiserror::Error;

/// What a document has too many of.
#[derive(Clone, Copy, Debug, PartialEq, Eq)]
pub enum Counted {
    Rules,
    Variables,
    Patterns,
    Actions,
}

impl fmt::Display for Counted {
    fn fmt<W: fmt::Write>(&self, f: &mut fmt::Formatter<W>) -> fmt::Result {
        match self {
            Counted::Rules => write!(f, "rules"),
            Counted::Variables => write!(f, "variables"),
            Counted::Patterns => write!(f, "patterns"),
            Counted::Actions => write!(f, "actions"),
        }
    }
}

/// Why an input is refused, and where. Lines and columns are counted from 1, columns in characters;
/// offsets are counted in bytes from 0, and rules from 1.
#[derive(Clone, Debug, Drop, PartialEq, Eq, Error)]
pub enum Refusal {
    /// The input has more bytes than an input may have.
    #[error("the input is longer than {most} bytes", most = MOST_INPUT_BYTES)]
    InputTooLong,
    /// The input isn't UTF-8; `at` is the number of bytes in its longest prefix that is.
    #[error("the input isn't UTF-8 at byte {at}")]
    NotUtf8 { at: u64 },
    /// No token begins at the place.
    #[error("line {line}, column {col}: no token begins here")]
    BadToken { line: u64, col: u64 },
    /// No document has this token, or this end, after the tokens before it.
    #[error("line {line}, column {col}: something else is expected here")]
    Expected { line: u64, col: u64 },
    /// A bracket opens inside 64 open ones.
    #[error("line {line}, column {col}: more than {most} brackets are open", most = MOST_OPEN_BRACKETS)]
    TooDeep { line: u64, col: u64 },
    /// An integer is outside the range of integers.
    #[error("line {line}, column {col}: the integer is out of range")]
    IntRange { line: u64, col: u64 },
    /// A prefix isn't declared.
    #[error("line {line}, column {col}: the prefix isn't declared")]
    UnknownPrefix { line: u64, col: u64 },
    /// The construct isn't part of the profile.
    #[error("line {line}, column {col}: this is left out of the profile")]
    LeftOut { line: u64, col: u64 },
    /// A name after `External (` isn't a built-in.
    #[error("line {line}, column {col}: there is no such built-in")]
    UnknownBuiltin { line: u64, col: u64 },
    /// A built-in has the wrong number of arguments.
    #[error("line {line}, column {col}: the built-in takes another number of arguments")]
    Arity { line: u64, col: u64 },
    /// A group's strategy isn't `rif:forwardChaining`.
    #[error("line {line}, column {col}: the strategy isn't rif:forwardChaining")]
    BadStrategy { line: u64, col: u64 },
    /// A group's priority is outside -10,000 to 10,000.
    #[error("line {line}, column {col}: the priority is outside -{most} to {most}", most = MOST_PRIORITY)]
    PriorityRange { line: u64, col: u64 },
    /// The document, or a rule, has too many of something.
    #[error("line {line}, column {col}: too many {what}")]
    TooMany { what: Counted, line: u64, col: u64 },
    /// A variable is used where none of its name holds.
    #[error("rule {rule}: the variable ?{name} isn't declared")]
    Undeclared { rule: u32, name: Text },
    /// A variable is declared inside the reach of one of the same name.
    #[error("rule {rule}: the variable ?{name} is declared twice")]
    DeclaredTwice { rule: u32, name: Text },
    /// A condition can't be put into an order in which each variable gets a value.
    #[error("rule {rule}: the variable ?{name} isn't bound")]
    Unsafe { rule: u32, name: Text },
    /// A line of the script has no item's form.
    #[error("line {line}: this is no item of a script")]
    BadLine { line: u64 },
    /// The budgets of a script are more than 1,000,000 together.
    #[error("line {line}: the budgets are above {most} together", most = MOST_BUDGETS)]
    BudgetTooLarge { line: u64 },
    /// A script has more than 65,536 items.
    #[error("line {line}: the script has more than {most} items", most = MOST_ITEMS)]
    TooManyItems { line: u64 },
    /// A script names more than 16 clients.
    #[error("line {line}: the script names more than {most} clients", most = MOST_CLIENTS)]
    TooManyClients { line: u64 },
    /// A condition, or a formula inside `Not` or `Exists`, has more than 64 branches.
    #[error("rule {rule}: a condition has more than {most} branches", most = MOST_BRANCHES)]
    TooManyBranches { rule: u32 },
}

impl Refusal {
    /// The refusal's number, by which a run prints it.
    ///
    /// Source: our own (docs/FORMATS.md, "Refusals").
    pub fn number(&self) -> u32
        ensures { result ≡ refusal_number self.now }
    {
        match self {
            Refusal::InputTooLong => 1,
            Refusal::NotUtf8 { .. } => 2,
            Refusal::BadToken { .. } => 3,
            Refusal::Expected { .. } => 4,
            Refusal::TooDeep { .. } => 5,
            Refusal::IntRange { .. } => 6,
            Refusal::UnknownPrefix { .. } => 7,
            Refusal::LeftOut { .. } => 8,
            Refusal::UnknownBuiltin { .. } => 9,
            Refusal::Arity { .. } => 10,
            Refusal::BadStrategy { .. } => 11,
            Refusal::PriorityRange { .. } => 12,
            Refusal::TooMany { .. } => 13,
            Refusal::Undeclared { .. } => 14,
            Refusal::DeclaredTwice { .. } => 15,
            Refusal::Unsafe { .. } => 16,
            Refusal::BadLine { .. } => 17,
            Refusal::BudgetTooLarge { .. } => 18,
            Refusal::TooManyItems { .. } => 19,
            Refusal::TooManyClients { .. } => 20,
            Refusal::TooManyBranches { .. } => 21,
        }
    }

    /// An equal refusal, in constant time.
    pub fn copy(&self) -> Result<Refusal, OutOfMemory>
        ensures { IfOk result (λ copy. copy ≡ self.now) }
    {
        Ok(self.clone()?)
    }
}
