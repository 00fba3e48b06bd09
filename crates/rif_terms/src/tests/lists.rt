//! Lists and sets.
use super::texts::sent;
use super::written::WrittenConst::{Bool, Int, Str};
use super::written::{WrittenConst, consts};
use crate::{Const, Listed, OutOfMemory, Shared, find_in_set, sorted_set};
use std::alloc::Global;
use std::test::Fail;

#[test]
fn a_list_has_its_items(rt: HostRuntime) -> Result<(), Fail> {
    let mut list = Listed::new(rt.alloc());
    assert!(rt; list.is_empty());
    list.push(3_u64)?;
    list.push(1)?;
    assert_eq!(rt;
        (list.len(), list.get(1).copied(), list.get(2).copied()),
        (2, Some(1), None)
    );
    let longer = Listed::from_vec(vec![in rt.alloc(); 3, 1, 0]?);
    assert!(rt; list < longer && list.clone()? == list && list != longer);
    let shared = sent(Shared::from_vec(rt.alloc(), list.into_vec())?);
    assert_eq!(rt; shared.as_slice(), [3, 1].as_slice());
    assert_eq!(rt;
        (shared.len(), shared.get(1).copied(), shared.is_empty()),
        (2, Some(1), false)
    );
    let longer = Shared::from_vec(rt.alloc(), longer.into_vec())?;
    assert!(rt; shared < longer && shared.copy()? == shared && shared != longer);
    Ok(())
}

static CONSTS: &[WrittenConst] = &[Str("a"), Int(5), Bool(true), Int(-5), Int(5)];

/// Constants, and where each is in the set of those, or would be put.
static PLACES: &[(WrittenConst, Result<usize, usize>)] = &[
    (Int(-6), Err(0)),
    (Int(-5), Ok(0)),
    (Int(5), Ok(1)),
    (Bool(false), Err(2)),
    (Bool(true), Ok(2)),
    (Str("a"), Ok(3)),
    (Str("b"), Err(4)),
];

// Where a constant is in the set of some, or would be put.
fn place_among(
    alloc: Global,
    all: Vec<Const>,
    wanted: &Const,
) -> Result<Result<usize, usize>, OutOfMemory> {
    let set = sorted_set(alloc, all)?;
    Ok(find_in_set(set.as_slice(), wanted))
}

#[test]
fn a_set_has_its_items_in_order(rt: HostRuntime) -> Result<(), Fail> {
    for (wanted, place) in PLACES {
        let all = consts(rt.alloc(), CONSTS)?;
        let found = place_among(rt.alloc(), all, &wanted.make(rt.alloc())?)?;
        assert_eq!(rt; found, *place, "{wanted:?}");
    }
    Ok(())
}
