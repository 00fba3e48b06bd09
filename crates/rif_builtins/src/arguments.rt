//! The arguments of built-ins by kind and number.
ghost use Rattle.std.specs.Prelude.{◌≡◌, MatchOption, Some, None};
ghost use Rattle.rif_builtins.specs.Builtins.{as_integer, as_boolean, as_string, as_constant, one_of, two_of};

use rif_values::{Const, Integer, Text};

/// The one argument; `None` where there is another number of them. It takes constant time, as the others here do.
pub fn one_constant(arguments: &[Const]) -> Option<&Const>
    ensures { MatchOption result (one_of as_constant arguments.now ≡ None)
        (λ one. one_of as_constant arguments.now ≡ Some one.now) }
{
    match arguments {
        [one] => Some(one),
        _ => None,
    }
}

/// The one argument, a boolean; `None` where it is of another kind, or there is another number of them.
pub fn one_boolean(arguments: &[Const]) -> Option<bool>
    ensures { result ≡ one_of as_boolean arguments.now }
{
    match arguments {
        [one] => as_boolean(one),
        _ => None,
    }
}

/// The one argument, a string; `None` where it is of another kind, or there is another number of them.
pub fn one_string(arguments: &[Const]) -> Option<&Text>
    ensures { MatchOption result (one_of as_string arguments.now ≡ None)
        (λ one. one_of as_string arguments.now ≡ Some one.now) }
{
    match arguments {
        [Const::Str(one)] => Some(one),
        _ => None,
    }
}

/// The two arguments, integers; `None` where one is of another kind, or there is another number of them.
pub fn two_integers(arguments: &[Const]) -> Option<(Integer, Integer)>
    ensures { result ≡ two_of as_integer arguments.now }
{
    match arguments {
        [first, second] => Some((as_integer(first)?, as_integer(second)?)),
        _ => None,
    }
}

/// The two arguments, booleans; `None` where one is of another kind, or there is another number of them.
pub fn two_booleans(arguments: &[Const]) -> Option<(bool, bool)>
    ensures { result ≡ two_of as_boolean arguments.now }
{
    match arguments {
        [first, second] => Some((as_boolean(first)?, as_boolean(second)?)),
        _ => None,
    }
}

/// The bytes of the two arguments, strings; `None` where one is of another kind, or there is another number of them.
pub fn two_strings(arguments: &[Const]) -> Option<(&[u8], &[u8])>
    ensures { MatchOption result (two_of as_string arguments.now ≡ None)
        (λ two. two_of as_string arguments.now ≡ Some (two.0.now, two.1.now)) }
{
    match arguments {
        [Const::Str(first), Const::Str(second)] => Some((first.bytes(), second.bytes())),
        _ => None,
    }
}

fn as_integer(constant: &Const) -> Option<Integer>
    ensures { result ≡ as_integer constant.now }
{
    match constant {
        Const::Int(number) => Some(*number),
        _ => None,
    }
}

fn as_boolean(constant: &Const) -> Option<bool>
    ensures { result ≡ as_boolean constant.now }
{
    match constant {
        Const::Bool(truth) => Some(*truth),
        _ => None,
    }
}
