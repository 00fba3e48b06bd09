//! Which kinds of arguments, and how many, a built-in has a value of.
use crate::values::{KINDS, Kind, constant_of};
use rif_builtins::{apply_func, holds};
use rif_tree::{Func, Pred};
use rif_values::{Const, OutOfMemory};
use std::alloc::Global;
use std::test::Fail;

/// A function, the kind of its arguments, and the least and the most of them.
static FUNCS: &[(Func, Kind, usize, usize)] = &[
    (Func::NumericAdd, Kind::Integer, 2, 2),
    (Func::NumericSubtract, Kind::Integer, 2, 2),
    (Func::NumericMultiply, Kind::Integer, 2, 2),
    (Func::NumericIntegerDivide, Kind::Integer, 2, 2),
    (Func::NumericIntegerMod, Kind::Integer, 2, 2),
    (Func::Not, Kind::Boolean, 1, 1),
    (Func::Concat, Kind::String, 2, 16),
    (Func::StringLength, Kind::String, 1, 1),
];

#[test]
fn functions_take_arguments_of_one_kind(rt: HostRuntime) -> Result<(), Fail> {
    let alloc = rt.alloc();
    for (func, kind, least, most) in FUNCS {
        for count in 0..18usize {
            let arguments = constants_of(alloc, *kind, count, *kind)?;
            let found = apply_func(alloc, *func, arguments.as_slice())?;
            let wanted = *least <= count && count <= *most;
            assert_eq!(rt; found.is_some(), wanted, "{func:?} {count}");
        }
        for other in KINDS {
            let arguments = constants_of(alloc, *kind, *least, *other)?;
            let found = apply_func(alloc, *func, arguments.as_slice())?;
            assert_eq!(rt; found.is_some(), kind == other, "{func:?} {other:?}");
            let turned = turned_round(alloc, arguments)?;
            let found = apply_func(alloc, *func, turned.as_slice())?;
            assert_eq!(rt; found.is_some(), kind == other, "{func:?} {other:?}");
        }
    }
    Ok(())
}

/// A predicate of two arguments, and their kind.
static PREDS: &[(Pred, Kind)] = &[
    (Pred::NumericEqual, Kind::Integer),
    (Pred::NumericNotEqual, Kind::Integer),
    (Pred::NumericLessThan, Kind::Integer),
    (Pred::NumericLessThanOrEqual, Kind::Integer),
    (Pred::NumericGreaterThan, Kind::Integer),
    (Pred::NumericGreaterThanOrEqual, Kind::Integer),
    (Pred::BooleanEqual, Kind::Boolean),
    (Pred::BooleanLessThan, Kind::Boolean),
    (Pred::BooleanGreaterThan, Kind::Boolean),
    (Pred::StartsWith, Kind::String),
    (Pred::EndsWith, Kind::String),
    (Pred::Contains, Kind::String),
];

#[test]
fn predicates_take_two_arguments_of_one_kind(rt: HostRuntime) -> Result<(), Fail> {
    let alloc = rt.alloc();
    for (pred, kind) in PREDS {
        for count in 0..18usize {
            let arguments = constants_of(alloc, *kind, count, *kind)?;
            let found = holds(*pred, arguments.as_slice());
            assert_eq!(rt; found.is_some(), count == 2, "{pred:?} {count}");
        }
        for other in KINDS {
            let arguments = constants_of(alloc, *kind, 2, *other)?;
            let found = holds(*pred, arguments.as_slice());
            assert_eq!(rt; found.is_some(), kind == other, "{pred:?} {other:?}");
            let turned = turned_round(alloc, arguments)?;
            let found = holds(*pred, turned.as_slice());
            assert_eq!(rt; found.is_some(), kind == other, "{pred:?} {other:?}");
        }
    }
    Ok(())
}

/// A predicate that tells a kind, and the kind.
static LITERALS: &[(Pred, Kind)] = &[
    (Pred::IsLiteralInteger, Kind::Integer),
    (Pred::IsLiteralString, Kind::String),
    (Pred::IsLiteralBoolean, Kind::Boolean),
];

#[test]
fn literals_are_told_apart(rt: HostRuntime) -> Result<(), Fail> {
    let alloc = rt.alloc();
    for (pred, kind) in LITERALS {
        for other in KINDS {
            let arguments = constants_of(alloc, *kind, 1, *other)?;
            let found = holds(*pred, arguments.as_slice());
            assert_eq!(rt; found, Some(kind == other), "{pred:?} {other:?}");
        }
        for count in [0usize, 2, 3] {
            let arguments = constants_of(alloc, *kind, count, *kind)?;
            assert_eq!(rt;
                holds(*pred, arguments.as_slice()),
                None,
                "{pred:?} {count}"
            );
        }
    }
    Ok(())
}

// So many constants of a kind, the last of another kind.
fn constants_of(
    alloc: Global,
    kind: Kind,
    count: usize,
    last: Kind,
) -> Result<Vec<Const>, OutOfMemory> {
    let mut constants = Vec::new(alloc);
    for place in 0..count {
        let kind = if place + 1 == count { last } else { kind };
        constants.push(constant_of(alloc, kind)?)?;
    }
    Ok(constants)
}

// The same constants, the last first.
fn turned_round(alloc: Global, mut constants: Vec<Const>) -> Result<Vec<Const>, OutOfMemory> {
    let mut turned = Vec::new(alloc);
    for _ in 0..constants.len() {
        if let Some(constant) = constants.pop() {
            turned.push(constant)?;
        }
    }
    Ok(turned)
}
