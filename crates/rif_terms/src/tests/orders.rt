//! The orders, as lists of values that rise, and hashes.
use super::written::WrittenConst::{Bool, Fresh, Int, Iri, Local, Str};
use super::written::WrittenFact::{Atom, Frame, Member};
use super::written::{WrittenConst, WrittenFact, binding, consts, facts};
use crate::{Binding, Const, Fact, Instance, OutOfMemory};
use std::alloc::Global;
use std::cmp::Ordering;
use std::collections::HashSet;
use std::hash::Hash;
use std::process::Abort;
use std::test::Fail;

static CONSTS: &[WrittenConst] = &[
    Int(i64::MIN),
    Int(-2),
    Int(-1),
    Int(0),
    Int(i64::MAX),
    Bool(false),
    Bool(true),
    Str(""),
    Str("10"),
    Str("9"),
    Str("B"),
    Str("a"),
    Str("a\0"),
    Str("ab"),
    Str("b"),
    Str("ä"),
    Iri("a"),
    Iri("b"),
    Local("a"),
    Local("b"),
    Fresh(0),
    Fresh(9),
    Fresh(10),
    Fresh(u64::MAX),
];

static FACTS: &[WrittenFact] = &[
    Atom(Int(1), &[Local("b")]),
    Atom(Local("p"), &[]),
    Atom(Local("p"), &[Int(1)]),
    Atom(Local("p"), &[Int(1), Int(0)]),
    Atom(Local("p"), &[Int(2)]),
    Atom(Local("q"), &[]),
    Frame(Local("a"), Local("s"), Int(1)),
    Frame(Local("a"), Local("s"), Int(2)),
    Frame(Local("a"), Local("t"), Int(0)),
    Frame(Local("b"), Local("a"), Int(0)),
    Member(Local("a"), Local("C")),
    Member(Local("a"), Local("D")),
    Member(Local("b"), Local("A")),
];

static BINDINGS: &[&[(u32, i64)]] = &[
    &[],
    &[(0, 1)],
    &[(0, 1), (1, 1)],
    &[(0, 1), (1, 2)],
    &[(0, 1), (2, 0)],
    &[(0, 2)],
    &[(0, 2), (1, 0)],
    &[(1, 1)],
    &[(2, -5)],
];

static INSTANCES: &[(u32, &[(u32, i64)])] = &[
    (1, &[]),
    (1, &[(0, 1)]),
    (1, &[(0, 2)]),
    (2, &[]),
    (2, &[(0, 0)]),
    (10, &[]),
];

/// A type with an order of its own.
trait Compared: PartialEq {
    fn compared(&self, other: &Self) -> Ordering;
}

impl Compared for Const {
    fn compared(&self, other: &Const) -> Ordering {
        self.cmp(other)
    }
}

impl Compared for Fact {
    fn compared(&self, other: &Fact) -> Ordering {
        self.cmp(other)
    }
}

impl Compared for Binding {
    fn compared(&self, other: &Binding) -> Ordering {
        self.cmp(other)
    }
}

impl Compared for Instance {
    fn compared(&self, other: &Instance) -> Ordering {
        self.cmp(other)
    }
}

// Asserts that each value is found in the set of all of them by an equal one.
fn are_keys<T: Hash + Drop>(
    rt: &impl Abort,
    alloc: Global,
    values: Vec<T>,
    equal: &[T],
) -> Result<(), OutOfMemory> {
    let mut set = HashSet::new(alloc);
    for value in values {
        assert!(rt; set.insert(value)?);
    }
    for value in equal {
        assert!(rt; set.contains(value));
    }
    Ok(())
}

// Asserts that each value is below those behind it, above those before it, and equal to itself alone.
fn rise<T: Compared>(rt: &impl Abort, values: &[T]) {
    for (i, x) in values.iter().enumerate() {
        for (j, y) in values.iter().enumerate() {
            assert!(rt; x.compared(y) == i.cmp(&j), "{i} and {j}");
            assert!(rt; (x == y) == (i == j), "{i} and {j}");
        }
    }
}

fn bindings(rt: &impl Abort, alloc: Global) -> Result<Vec<Binding>, OutOfMemory> {
    let mut made = Vec::new(alloc);
    for pairs in BINDINGS {
        made.push(binding(rt, alloc, pairs)?)?;
    }
    Ok(made)
}

fn instances(rt: &impl Abort, alloc: Global) -> Result<Vec<Instance>, OutOfMemory> {
    let mut made = Vec::new(alloc);
    for (rule, pairs) in INSTANCES {
        let row = binding(rt, alloc, pairs)?;
        made.push(Instance { rule: *rule, row })?;
    }
    Ok(made)
}

#[test]
fn values_have_their_order(rt: HostRuntime) -> Result<(), Fail> {
    rise(&rt, consts(rt.alloc(), CONSTS)?.as_slice());
    rise(&rt, facts(rt.alloc(), FACTS)?.as_slice());
    rise(&rt, bindings(&rt, rt.alloc())?.as_slice());
    rise(&rt, instances(&rt, rt.alloc())?.as_slice());
    Ok(())
}

#[test]
fn values_are_keys(rt: HostRuntime) -> Result<(), Fail> {
    let alloc = rt.alloc();
    are_keys(
        &rt,
        alloc,
        facts(alloc, FACTS)?,
        facts(alloc, FACTS)?.as_slice(),
    )?;
    are_keys(
        &rt,
        alloc,
        instances(&rt, alloc)?,
        instances(&rt, alloc)?.as_slice(),
    )?;
    Ok(())
}
