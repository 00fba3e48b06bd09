//! Values for the tests: written down without memory, and made of what was written.
use crate::{Binding, Const, Fact, OutOfMemory, Shared, Text};
use std::alloc::Global;
use std::process::Abort;

#[derive(Clone, Copy, Debug)]
pub enum WrittenConst {
    Int(i64),
    Bool(bool),
    Str(&'static str),
    Iri(&'static str),
    Local(&'static str),
    Fresh(u64),
}

#[derive(Clone, Copy, Debug)]
pub enum WrittenFact {
    Atom(WrittenConst, &'static [WrittenConst]),
    Frame(WrittenConst, WrittenConst, WrittenConst),
    Member(WrittenConst, WrittenConst),
}

impl WrittenConst {
    pub fn make(self, alloc: Global) -> Result<Const, OutOfMemory> {
        match self {
            WrittenConst::Int(number) => Ok(Const::Int(number)),
            WrittenConst::Bool(truth) => Ok(Const::Bool(truth)),
            WrittenConst::Str(text) => Ok(Const::Str(Text::from_str(alloc, text)?)),
            WrittenConst::Iri(text) => Ok(Const::Iri(Text::from_str(alloc, text)?)),
            WrittenConst::Local(text) => Ok(Const::Local(Text::from_str(alloc, text)?)),
            WrittenConst::Fresh(number) => Ok(Const::Fresh(number)),
        }
    }
}

impl WrittenFact {
    pub fn make(self, alloc: Global) -> Result<Fact, OutOfMemory> {
        match self {
            WrittenFact::Atom(predicate, arguments) => {
                let arguments = Shared::from_vec(alloc, consts(alloc, arguments)?)?;
                Ok(Fact::Atom(predicate.make(alloc)?, arguments))
            }
            WrittenFact::Frame(object, slot, value) => {
                Ok(Fact::Frame(object.make(alloc)?, slot.make(alloc)?, value.make(alloc)?))
            }
            WrittenFact::Member(object, class) => {
                Ok(Fact::Member(object.make(alloc)?, class.make(alloc)?))
            }
        }
    }
}

pub fn consts(alloc: Global, written: &[WrittenConst]) -> Result<Vec<Const>, OutOfMemory> {
    let mut made = Vec::new(alloc);
    for value in written {
        made.push(value.make(alloc)?)?;
    }
    Ok(made)
}

pub fn facts(alloc: Global, written: &[WrittenFact]) -> Result<Vec<Fact>, OutOfMemory> {
    let mut made = Vec::new(alloc);
    for fact in written {
        made.push(fact.make(alloc)?)?;
    }
    Ok(made)
}

/// The binding of these variables, each of which stands once, to integers.
pub fn binding(
    rt: &impl Abort,
    alloc: Global,
    written: &[(u32, i64)],
) -> Result<Binding, OutOfMemory> {
    let mut row = Binding::new(alloc)?;
    for (var, number) in written {
        row = row_with(rt, alloc, &row, *var, *number)?;
    }
    Ok(row)
}

fn row_with(
    rt: &impl Abort,
    alloc: Global,
    row: &Binding,
    var: u32,
    number: i64,
) -> Result<Binding, OutOfMemory> {
    match row.get(var) {
        Some(_) => panic!(rt; "?{var} stands twice"),
        None => row.with(alloc, var, &Const::Int(number)),
    }
}
