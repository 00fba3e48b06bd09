/// A built-in function.
///
/// Source: RIF-DTB, "List of RIF Built-in Predicates and Functions", but for the name and meaning of
/// `NumericIntegerMod`, which are our own (docs/PROFILE.md, "Built-ins").
#[derive(Clone, Copy, Debug, PartialEq, Eq)]
pub enum Func {
    NumericAdd,
    NumericSubtract,
    NumericMultiply,
    NumericIntegerDivide,
    NumericIntegerMod,
    Not,
    Concat,
    StringLength,
}

/// A built-in predicate.
///
/// Source: RIF-DTB, "List of RIF Built-in Predicates and Functions".
#[derive(Clone, Copy, Debug, PartialEq, Eq)]
pub enum Pred {
    NumericEqual,
    NumericNotEqual,
    NumericLessThan,
    NumericLessThanOrEqual,
    NumericGreaterThan,
    NumericGreaterThanOrEqual,
    BooleanEqual,
    BooleanLessThan,
    BooleanGreaterThan,
    StartsWith,
    EndsWith,
    Contains,
    IsLiteralInteger,
    IsLiteralString,
    IsLiteralBoolean,
}

/// A built-in.
#[derive(Clone, Copy)]
pub enum Builtin {
    Func(Func),
    Pred(Pred),
}

/// The least and the greatest number of arguments that a built-in takes.
#[derive(Clone, Copy)]
pub struct Arity {
    pub least: u64,
    pub most: u64,
}
