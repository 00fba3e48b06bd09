//! Functions and comparisons of integers, and comparisons of booleans.
use crate::values::integers;
use rif_builtins::{apply_func, holds};
use rif_tree::{Func, Pred};
use rif_values::{Const, GREATEST_INTEGER, Integer, LEAST_INTEGER};
use std::test::Fail;

const LEAST: Integer = LEAST_INTEGER;

const MOST: Integer = GREATEST_INTEGER;

/// A function, two integers, and the function's value at them.
static VALUES: &[(Func, Integer, Integer, Option<Integer>)] = &[
    (Func::NumericAdd, 2, -5, Some(-3)),
    (Func::NumericAdd, MOST, 0, Some(MOST)),
    (Func::NumericAdd, MOST, 1, None),
    (Func::NumericAdd, LEAST, -1, None),
    (Func::NumericAdd, LEAST, MOST, Some(-1)),
    (Func::NumericSubtract, 2, 5, Some(-3)),
    (Func::NumericSubtract, -1, MOST, Some(LEAST)),
    (Func::NumericSubtract, -1, LEAST, Some(MOST)),
    (Func::NumericSubtract, 0, LEAST, None),
    (Func::NumericSubtract, LEAST, 1, None),
    (Func::NumericMultiply, -3, 4, Some(-12)),
    (Func::NumericMultiply, 0, LEAST, Some(0)),
    (Func::NumericMultiply, LEAST, 1, Some(LEAST)),
    (Func::NumericMultiply, LEAST, -1, None),
    (Func::NumericMultiply, MOST, -1, Some(LEAST + 1)),
    (Func::NumericMultiply, MOST, 2, None),
    (Func::NumericIntegerDivide, 7, 2, Some(3)),
    (Func::NumericIntegerDivide, -7, 2, Some(-3)),
    (Func::NumericIntegerDivide, 7, -2, Some(-3)),
    (Func::NumericIntegerDivide, -7, -2, Some(3)),
    (Func::NumericIntegerDivide, 0, -2, Some(0)),
    (Func::NumericIntegerDivide, 1, MOST, Some(0)),
    (Func::NumericIntegerDivide, 7, 0, None),
    (Func::NumericIntegerDivide, LEAST, 1, Some(LEAST)),
    (Func::NumericIntegerDivide, LEAST, -1, None),
    (Func::NumericIntegerDivide, LEAST, LEAST, Some(1)),
    (Func::NumericIntegerDivide, MOST, LEAST, Some(0)),
    (Func::NumericIntegerMod, 7, 2, Some(1)),
    (Func::NumericIntegerMod, -7, 2, Some(-1)),
    (Func::NumericIntegerMod, 7, -2, Some(1)),
    (Func::NumericIntegerMod, -7, -2, Some(-1)),
    (Func::NumericIntegerMod, -6, 2, Some(0)),
    (Func::NumericIntegerMod, 7, 0, None),
    (Func::NumericIntegerMod, LEAST, 0, None),
    (Func::NumericIntegerMod, LEAST, -1, Some(0)),
    (Func::NumericIntegerMod, LEAST, MOST, Some(-1)),
    (Func::NumericIntegerMod, MOST, LEAST, Some(MOST)),
];

#[test]
fn functions_of_integers_have_their_values(rt: HostRuntime) -> Result<(), Fail> {
    let alloc = rt.alloc();
    for (func, one, other, wanted) in VALUES {
        let arguments = integers(alloc, *one, *other)?;
        let found = apply_func(alloc, *func, arguments.as_slice())?;
        let wanted = wanted.map(|number| Const::Int(number));
        assert_eq!(rt; found, wanted, "{func:?} {one} {other}");
    }
    Ok(())
}

/// A comparison, and whether it holds where the first is less than the second, equal to it, and greater.
static COMPARISONS: &[(Pred, bool, bool, bool)] = &[
    (Pred::NumericEqual, false, true, false),
    (Pred::NumericNotEqual, true, false, true),
    (Pred::NumericLessThan, true, false, false),
    (Pred::NumericLessThanOrEqual, true, true, false),
    (Pred::NumericGreaterThan, false, false, true),
    (Pred::NumericGreaterThanOrEqual, false, true, true),
];

/// Integers, of which the first is less than the second.
static PAIRS: &[(Integer, Integer)] = &[
    (2, 3),
    (-3, -2),
    (-1, 0),
    (-5, 5),
    (LEAST, MOST),
    (LEAST, 0),
    (MOST - 1, MOST),
];

#[test]
fn integers_are_compared(rt: HostRuntime) -> Result<(), Fail> {
    let alloc = rt.alloc();
    for (pred, less, equal, greater) in COMPARISONS {
        for (one, other) in PAIRS {
            let up = integers(alloc, *one, *other)?;
            assert_eq!(rt;
                holds(*pred, up.as_slice()),
                Some(*less),
                "{pred:?} {one} {other}"
            );
            let down = integers(alloc, *other, *one)?;
            assert_eq!(rt;
                holds(*pred, down.as_slice()),
                Some(*greater),
                "{pred:?} {other} {one}"
            );
            let same = integers(alloc, *one, *one)?;
            assert_eq!(rt;
                holds(*pred, same.as_slice()),
                Some(*equal),
                "{pred:?} {one} {one}"
            );
        }
    }
    Ok(())
}

/// A comparison of two booleans, and whether it holds.
static TRUTHS: &[(Pred, bool, bool, bool)] = &[
    (Pred::BooleanEqual, false, false, true),
    (Pred::BooleanEqual, false, true, false),
    (Pred::BooleanEqual, true, false, false),
    (Pred::BooleanEqual, true, true, true),
    (Pred::BooleanLessThan, false, false, false),
    (Pred::BooleanLessThan, false, true, true),
    (Pred::BooleanLessThan, true, false, false),
    (Pred::BooleanLessThan, true, true, false),
    (Pred::BooleanGreaterThan, false, false, false),
    (Pred::BooleanGreaterThan, false, true, false),
    (Pred::BooleanGreaterThan, true, false, true),
    (Pred::BooleanGreaterThan, true, true, false),
];

#[test]
fn booleans_are_compared_and_negated(rt: HostRuntime) -> Result<(), Fail> {
    let alloc = rt.alloc();
    for (pred, one, other, wanted) in TRUTHS {
        let arguments = [Const::Bool(*one), Const::Bool(*other)];
        assert_eq!(rt;
            holds(*pred, &arguments),
            Some(*wanted),
            "{pred:?} {one} {other}"
        );
    }
    for truth in [false, true] {
        let found = apply_func(alloc, Func::Not, &[Const::Bool(truth)])?;
        assert_eq!(rt; found, Some(Const::Bool(!truth)));
    }
    Ok(())
}
