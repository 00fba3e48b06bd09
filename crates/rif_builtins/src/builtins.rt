//! The built-ins, row by row of their table.
ghost use Rattle.std.specs.Prelude.{◌≡◌, IfOk};
ghost use Rattle.rif_builtins.specs.Builtins.{func_value, pred_value};

use crate::arguments::{one_boolean, one_constant, two_booleans, two_integers};
use crate::{numbers, strings};
use rif_tree::{Func, Pred};
use rif_values::{Const, OutOfMemory};
use std::alloc::Global;

/// The value of a built-in function at some arguments; `None` where it has none there. `Concat` alone takes memory,
/// and no function copies an argument whole.
///
/// Source: RIF-DTB, "List of RIF Built-in Predicates and Functions"; the ranges are our own (docs/BUILTINS.md).
pub fn apply_func(
    alloc: Global,
    func: Func,
    arguments: &[Const],
) -> Result<Option<Const>, OutOfMemory>
    ensures { IfOk result (λ value. value ≡ func_value func arguments.now) }
{
    match func {
        Func::NumericAdd => Ok(numbers::sum(arguments)),
        Func::NumericSubtract => Ok(numbers::difference(arguments)),
        Func::NumericMultiply => Ok(numbers::product(arguments)),
        Func::NumericIntegerDivide => Ok(numbers::quotient(arguments)),
        Func::NumericIntegerMod => Ok(numbers::remainder(arguments)),
        Func::Not => Ok(one_boolean(arguments).map(|truth| Const::Bool(!truth))),
        Func::Concat => strings::concat(alloc, arguments),
        Func::StringLength => Ok(strings::string_length(arguments)),
    }
}

/// Whether a built-in predicate holds of some arguments; `None` where it says nothing of them. It takes no memory.
///
/// Source: RIF-DTB, "List of RIF Built-in Predicates and Functions".
pub fn holds(pred: Pred, arguments: &[Const]) -> Option<bool>
    ensures { result ≡ pred_value pred arguments.now }
{
    match pred {
        Pred::NumericEqual => two_integers(arguments).map(|(one, other)| one == other),
        Pred::NumericNotEqual => two_integers(arguments).map(|(one, other)| one != other),
        Pred::NumericLessThan => two_integers(arguments).map(|(one, other)| one < other),
        Pred::NumericLessThanOrEqual => two_integers(arguments).map(|(one, other)| one <= other),
        Pred::NumericGreaterThan => two_integers(arguments).map(|(one, other)| one > other),
        Pred::NumericGreaterThanOrEqual => two_integers(arguments).map(|(one, other)| one >= other),
        Pred::BooleanEqual => two_booleans(arguments).map(|(one, other)| one == other),
        Pred::BooleanLessThan => two_booleans(arguments).map(|(one, other)| !one && other),
        Pred::BooleanGreaterThan => two_booleans(arguments).map(|(one, other)| one && !other),
        Pred::StartsWith => strings::starts_with(arguments),
        Pred::EndsWith => strings::ends_with(arguments),
        Pred::Contains => strings::contains(arguments),
        Pred::IsLiteralInteger => one_constant(arguments).map(|one| matches!(one, Const::Int(_))),
        Pred::IsLiteralString => one_constant(arguments).map(|one| matches!(one, Const::Str(_))),
        Pred::IsLiteralBoolean => one_constant(arguments).map(|one| matches!(one, Const::Bool(_))),
    }
}
