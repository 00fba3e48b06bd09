//! Copies: each is what it is a copy of.
use super::written::WrittenConst::{Int, Local};
use super::written::WrittenFact::{Atom, Member};
use super::written::{binding, facts};
use crate::{
    Action, Change, Const, Delta, Doc, Formula, Func, Instance, Listed, OutOfMemory, RowDelta,
    Rule, Target, Term, Text,
};
use sqlite_items::Items;
use std::alloc::Global;
use std::test::Fail;

fn local(alloc: Global, name: &str) -> Result<Const, OutOfMemory> {
    Ok(Const::Local(Text::from_str(alloc, name)?))
}

// ?0 + 1
fn call(alloc: Global) -> Result<Term, OutOfMemory> {
    let arguments = vec![in alloc; Term::Var(0), Term::Const(Const::Int(1))]?;
    Ok(Term::Call(Func::NumericAdd, Items::from_vec(arguments)))
}

fn arguments(alloc: Global) -> Result<Items<Term>, OutOfMemory> {
    Ok(Items::from_vec(vec![in alloc; call(alloc)?]?))
}

fn rule(alloc: Global) -> Result<Rule, OutOfMemory> {
    let action = Action::Assert(Target::Atom(local(alloc, "p")?, arguments(alloc)?));
    Ok(Rule {
        priority: -10,
        names: Items::from_vec(vec![in alloc; Text::from_str(alloc, "x")?]?),
        levels: Items::new(alloc),
        condition: Some(Formula::Atom(local(alloc, "q")?, arguments(alloc)?)),
        decls: Items::new(alloc),
        actions: Items::from_vec(vec![in alloc; action]?),
    })
}

#[test]
fn a_document_is_copied_whole(rt: HostRuntime) -> Result<(), Fail> {
    let rules = Items::from_vec(vec![in rt.alloc(); rule(rt.alloc())?]?);
    let doc = Doc { rules };
    let copy = doc.copy(rt.alloc())?;
    let both = format!(in rt.alloc(); "{doc:?}{copy:?}")?;
    let twice = format!(in rt.alloc(); "{doc:?}{doc:?}")?;
    assert_eq!(rt; both.as_str(), twice.as_str());
    Ok(())
}

fn delta(alloc: Global) -> Result<Delta, OutOfMemory> {
    let added = Listed::from_vec(facts(alloc, &[Atom(Local("p"), &[Int(1), Int(2)])])?);
    let removed = Listed::from_vec(facts(alloc, &[Member(Local("a"), Local("C"))])?);
    Ok(Delta { added, removed })
}

#[test]
fn changes_and_instances_are_copied_whole(rt: HostRuntime) -> Result<(), Fail> {
    let modify = Change::Modify(
        local(rt.alloc(), "o")?,
        local(rt.alloc(), "s")?,
        Const::Int(1),
    );
    assert!(rt; modify.copy()? == modify);
    let delta = delta(rt.alloc())?;
    assert!(rt; delta.copy()? == delta);
    let row = binding(&rt, rt.alloc(), &[(0, 1)])?;
    let rows = RowDelta {
        added: Listed::from_vec(vec![in rt.alloc(); row.copy()?]?),
        removed: Listed::new(rt.alloc()),
    };
    assert!(rt; rows.copy()? == rows);
    let instance = Instance { rule: 2, row };
    assert!(rt; instance.copy()? == instance);
    Ok(())
}
