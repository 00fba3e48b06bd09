//! Arguments for the tests.
use rif_values::{Const, Integer, OutOfMemory, Text};
use std::alloc::Global;

/// A kind of constants.
#[derive(Clone, Copy, Debug, PartialEq, Eq)]
pub enum Kind {
    Integer,
    Boolean,
    String,
    Iri,
    Local,
    Fresh,
}

/// Every kind.
pub static KINDS: &[Kind] = &[
    Kind::Integer,
    Kind::Boolean,
    Kind::String,
    Kind::Iri,
    Kind::Local,
    Kind::Fresh,
];

/// A constant of a kind.
pub fn constant_of(alloc: Global, kind: Kind) -> Result<Const, OutOfMemory> {
    match kind {
        Kind::Integer => Ok(Const::Int(1)),
        Kind::Boolean => Ok(Const::Bool(true)),
        Kind::String => Ok(Const::Str(Text::from_str(alloc, "1")?)),
        Kind::Iri => Ok(Const::Iri(Text::from_str(alloc, "1")?)),
        Kind::Local => Ok(Const::Local(Text::from_str(alloc, "1")?)),
        Kind::Fresh => Ok(Const::Fresh(1)),
    }
}

/// Two integers.
pub fn integers(alloc: Global, one: Integer, other: Integer) -> Result<Vec<Const>, OutOfMemory> {
    let mut arguments = Vec::new(alloc);
    arguments.push(Const::Int(one))?;
    arguments.push(Const::Int(other))?;
    Ok(arguments)
}

/// Some strings.
pub fn strings(alloc: Global, texts: &[&str]) -> Result<Vec<Const>, OutOfMemory> {
    let mut arguments = Vec::new(alloc);
    for text in texts {
        arguments.push(Const::Str(Text::from_str(alloc, text)?))?;
    }
    Ok(arguments)
}
