//! The built-in functions of integers.
ghost use Rattle.std.specs.Prelude.{◌≡◌};
ghost use Rattle.rif_tree.specs.declared.builtin.Func.TheVariants.{NumericAdd, NumericSubtract, NumericMultiply};
ghost use Rattle.rif_tree.specs.declared.builtin.Func.TheVariants.{NumericIntegerDivide, NumericIntegerMod};
ghost use Rattle.rif_builtins.specs.Builtins.{func_value};

use crate::arguments::two_integers;
use rif_values::Const;

/// The sum of two integers; `None` where it is out of range, as with all functions here.
pub fn sum(arguments: &[Const]) -> Option<Const>
    ensures { result ≡ func_value NumericAdd arguments.now }
{
    let (first, second) = two_integers(arguments)?;
    Some(Const::Int(first.checked_add(second)?))
}

/// The difference of two integers.
pub fn difference(arguments: &[Const]) -> Option<Const>
    ensures { result ≡ func_value NumericSubtract arguments.now }
{
    let (first, second) = two_integers(arguments)?;
    Some(Const::Int(first.checked_sub(second)?))
}

/// The product of two integers.
pub fn product(arguments: &[Const]) -> Option<Const>
    ensures { result ≡ func_value NumericMultiply arguments.now }
{
    let (first, second) = two_integers(arguments)?;
    Some(Const::Int(first.checked_mul(second)?))
}

/// The quotient of two integers, cut towards zero; `None` by zero.
pub fn quotient(arguments: &[Const]) -> Option<Const>
    ensures { result ≡ func_value NumericIntegerDivide arguments.now }
{
    let (dividend, divisor) = two_integers(arguments)?;
    Some(Const::Int(dividend.checked_div(divisor)?))
}

/// The remainder of two integers, with the sign of the dividend; `None` by zero. By -1 it is 0, also where the
/// quotient is out of range.
pub fn remainder(arguments: &[Const]) -> Option<Const>
    ensures { result ≡ func_value NumericIntegerMod arguments.now }
{
    match two_integers(arguments)? {
        (_, -1) => Some(Const::Int(0)),
        (dividend, divisor) => Some(Const::Int(dividend.checked_rem(divisor)?)),
    }
}
