//! Bindings and the places of facts.
use super::texts::sent;
use super::written::WrittenConst::{Int, Local};
use super::written::WrittenFact::{Atom, Frame, Member};
use super::written::{WrittenConst, WrittenFact, binding};
use crate::{Binding, Const};
use std::test::Fail;

fn number_at(row: &Binding, var: u32) -> Option<i64> {
    match row.get(var) {
        Some(Const::Int(number)) => Some(*number),
        _ => None,
    }
}

#[test]
fn a_binding_has_its_values(rt: HostRuntime) -> Result<(), Fail> {
    let row = binding(&rt, rt.alloc(), &[(3, 30), (1, 10)])?;
    for (var, number) in [
        (0, None),
        (1, Some(10)),
        (2, None),
        (3, Some(30)),
        (4, None),
    ] {
        assert_eq!(rt; number_at(&row, var), number);
    }
    let pairs = [(1, Const::Int(10)), (3, Const::Int(30))];
    assert!(rt; row.pairs() == pairs.as_slice());
    let shorter = sent(row.without(rt.alloc(), &[0, 3])?);
    assert!(rt; shorter == binding(&rt, rt.alloc(), &[(1, 10)])? && shorter.copy()? == shorter);
    Ok(())
}

/// Facts, and the constants at the places from 0 on.
static FACTS: &[(WrittenFact, &[Option<WrittenConst>])] = &[
    (Atom(Local("p"), &[]), &[None]),
    (
        Atom(Local("p"), &[Int(1), Int(2)]),
        &[Some(Int(1)), Some(Int(2)), None],
    ),
    (
        Frame(Local("o"), Local("s"), Int(1)),
        &[Some(Local("o")), Some(Local("s")), Some(Int(1)), None],
    ),
    (
        Member(Local("o"), Local("C")),
        &[Some(Local("o")), Some(Local("C")), None, None],
    ),
];

#[test]
fn a_fact_has_its_places(rt: HostRuntime) -> Result<(), Fail> {
    for (fact, places) in FACTS {
        let made = fact.make(rt.alloc())?;
        for (at, wanted) in places.iter().enumerate() {
            match wanted {
                Some(constant) => assert!(rt; made.place(at) == Some(&constant.make(rt.alloc())?)),
                None => assert!(rt; made.place(at).is_none()),
            }
        }
    }
    Ok(())
}
